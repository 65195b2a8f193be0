use crate::{exec_at, exec_text, unread_at};
use byte_kit::{NoMemory, put_le32};
use sbuf_nest::Look;
use std::alloc::Global;
use std::test::Fail;

// The place at which the bytes begin.
fn place<'a>(bytes: &'a [u8]) -> Look<'a> {
    Look {
        before: b"",
        after: bytes,
    }
}

// The bytes begin with an executable of this text and extent, or with none where the text is empty.
fn shows(alloc: Global, bytes: &[u8], text: &str, extent: u32) -> Result<bool, NoMemory> {
    match exec_at(&place(bytes)) {
        None => Ok(text.is_empty()),
        Some(exec) => {
            let shown = exec_text(alloc, &exec)?;
            Ok(shown.as_slice() == text.as_bytes() && exec.extent() == extent)
        }
    }
}

// An ELF header from its class, byte order, version and the bytes of its type and machine.
fn elf_file(class: u8, order: u8, version: u8, numbers: [u8; 4]) -> [u8; 20] {
    let [a, b, c, d] = numbers;
    [
        0x7f, b'E', b'L', b'F', class, order, version, 0, 0, 0, 0, 0, 0, 0, 0, 0, a, b, c, d,
    ]
}

// A class, a byte order, a version, the bytes of a type and a machine, and the text of the header.
type Elf = (u8, u8, u8, [u8; 4], &'static str);

const ELF_FILES: &[Elf] = &[
    (
        2,
        1,
        1,
        [2, 0, 0x3e, 0],
        "ELF class=64 order=little type=2 machine=62",
    ),
    (
        1,
        2,
        1,
        [0, 2, 1, 2],
        "ELF class=32 order=big type=2 machine=258",
    ),
    (3, 1, 1, [2, 0, 0x3e, 0], ""),
    (2, 3, 1, [2, 0, 0x3e, 0], ""),
    (2, 1, 2, [2, 0, 0x3e, 0], ""),
];

// The header shows its text.
fn shows_elf(alloc: Global, row: &Elf) -> Result<bool, NoMemory> {
    let (class, order, version, numbers, text) = *row;
    let file = elf_file(class, order, version, numbers);
    shows(alloc, &file, text, 20)
}

#[test]
fn an_elf_header_shows_its_class_order_type_and_machine(rt: HostRuntime) -> Result<(), Fail> {
    for row in ELF_FILES {
        assert!(rt;
            shows_elf(rt.alloc(), row)?,
            "at {} {} {}",
            row.0,
            row.1,
            row.2
        );
    }
    let file = elf_file(2, 1, 1, [2, 0, 0x3e, 0]);
    assert!(rt;
        shows(rt.alloc(), &file[..19], "", 20)?,
        "a byte is missing"
    );
    Ok(())
}

// A file of so many bytes whose MS-DOS header names the place of a PE header, and which has one there.
fn pe_file(alloc: Global, at: u32, bytes: usize) -> Result<Vec<u8>, NoMemory> {
    let mut file = Vec::from_slice(alloc, b"MZ")?;
    file.resize(60, 0)?;
    file.extend_from_slice(&put_le32(at))?;
    file.resize(at as usize, 0)?;
    file.extend_from_slice(b"PE\0\0\x4c\x01\x03\0\x78\x56\x34\x12")?;
    file.resize(bytes, 0)?;
    Ok(file)
}

const PE_TEXT: &str = "PE machine=332 sections=3 time=305419896";

// The place of the header, how many bytes the file has, and its text.
const PE_FILES: &[(u32, usize, &str)] = &[
    (64, 76, PE_TEXT),
    (64, 75, ""),
    (63, 200, ""),
    (4096, 4108, PE_TEXT),
    (4097, 4200, ""),
];

// The file shows the text.
fn shows_pe(alloc: Global, at: u32, bytes: usize, text: &str) -> Result<bool, NoMemory> {
    let file = pe_file(alloc, at, bytes)?;
    shows(alloc, file.as_slice(), text, 64)
}

#[test]
fn a_pe_header_stands_64_to_4096_bytes_behind_the_front(rt: HostRuntime) -> Result<(), Fail> {
    for (at, bytes, text) in PE_FILES {
        assert!(rt;
            shows_pe(rt.alloc(), *at, *bytes, text)?,
            "at {at} of {bytes}"
        );
    }
    Ok(())
}

// Bytes, and the text and the extent of the file that begins there: no text where none does.
const UNREAD: &[(&[u8], &[u8], u32)] = &[
    (b"\x1f\x8b\x08\0", b"gzip", 3),
    (b"\x1f\x8b", b"", 0),
    (b"PK\x03\x04", b"zip", 4),
    (b"PK\x03", b"", 0),
    (b"PK\x01\x02", b"", 0),
];

// The bytes begin with a file of this text and extent.
fn shows_unread(bytes: &[u8], text: &[u8], extent: u32) -> bool {
    match unread_at(&place(bytes)) {
        Some(unread) => unread.text() == text && unread.extent() == extent,
        None => text.is_empty(),
    }
}

#[test]
fn gzip_and_zip_are_known_by_their_signatures(rt: HostRuntime) {
    for (bytes, text, extent) in UNREAD {
        assert!(rt; shows_unread(bytes, text, *extent), "at {bytes:?}");
    }
}
