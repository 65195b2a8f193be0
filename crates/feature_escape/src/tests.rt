use crate::{escape, escape_into, lenient_undoes_escape, unescape_lenient, unescape_strict};
use byte_kit::NoMemory;
use std::alloc::Global;
use std::test::Fail;

// The bytes are escaped as this text.
fn is_escaped(alloc: Global, bytes: &[u8], text: &[u8]) -> Result<bool, NoMemory> {
    let escaped = escape(alloc, bytes)?;
    Ok(escaped.as_slice() == text)
}

// The strict reading of the text gives these bytes.
fn is_read(alloc: Global, text: &[u8], bytes: &[u8]) -> Result<bool, NoMemory> {
    match unescape_strict(alloc, text)? {
        Some(read) => Ok(read.as_slice() == bytes),
        None => Ok(false),
    }
}

// The lenient reading of the text gives these bytes.
fn is_taken(alloc: Global, text: &[u8], bytes: &[u8]) -> Result<bool, NoMemory> {
    let read = unescape_lenient(alloc, text)?;
    Ok(read.as_slice() == bytes)
}

// Bytes, and their escape.
const ESCAPES: &[(&[u8], &[u8])] = &[
    (b"", b""),
    (b"\x09\x5c\xff", b"\\x09\\x5C\\xFF"),
    (b" see x5C ~", b" see x5C ~"),
    (b"a\x00b\x7f\x80", b"a\\x00b\\x7F\\x80"),
    (b"\n\x1f\xab\xfe", b"\\x0A\\x1F\\xAB\\xFE"),
];

#[test]
fn what_is_not_printable_stands_by_its_digits(rt: HostRuntime) -> Result<(), Fail> {
    for (bytes, text) in ESCAPES {
        assert!(rt; is_escaped(rt.alloc(), bytes, text)?, "at {bytes:?}");
        assert!(rt; is_read(rt.alloc(), text, bytes)?, "at {bytes:?}");
    }
    Ok(())
}

// A line of two escapes behind a text.
fn two_escapes(alloc: Global) -> Result<Vec<u8>, NoMemory> {
    let mut line = Vec::from_slice(alloc, b"4\t")?;
    escape_into(b"a\\b", &mut line)?;
    line.extend_from_slice(b"\t")?;
    escape_into(b"\x00a\\b\x0a", &mut line)?;
    Ok(line)
}

#[test]
fn a_line_takes_several_escapes(rt: HostRuntime) -> Result<(), Fail> {
    let line = two_escapes(rt.alloc())?;
    let text = b"4\ta\\x5Cb\t\\x00a\\x5Cb\\x0A".as_slice();
    assert!(rt; line.as_slice() == text);
    Ok(())
}

// A run of so many bytes that stand, the piece, and two bytes that stand.
fn after_run(alloc: Global, count: usize, piece: &[u8]) -> Result<Vec<u8>, NoMemory> {
    let mut line = Vec::new(alloc);
    line.resize(count, b'~')?;
    line.extend_from_slice(piece)?;
    line.extend_from_slice(b" ~")?;
    Ok(line)
}

// The piece is escaped as this text behind so many bytes that stand.
fn is_escaped_behind(
    alloc: Global,
    count: usize,
    piece: &[u8],
    text: &[u8],
) -> Result<bool, NoMemory> {
    let line = after_run(alloc, count, piece)?;
    let text = after_run(alloc, count, text)?;
    is_escaped(alloc, line.as_slice(), text.as_slice())
}

#[test]
fn no_offset_hides_what_is_escaped(rt: HostRuntime) -> Result<(), Fail> {
    let piece = b"\x7f~\\ \x1f".as_slice();
    let text = b"\\x7F~\\x5C \\x1F".as_slice();
    for count in 0..71 {
        assert!(rt;
            is_escaped_behind(rt.alloc(), count, piece, text)?,
            "at {count}"
        );
    }
    Ok(())
}

// Texts that are no escape of any bytes.
const REFUSED: &[&[u8]] = &[
    b"\\x41",
    b"\\x5c",
    b"\\",
    b"\\x4",
    b"\t",
    b"\\xZZ",
    b"\\X5C",
    b"\\xfF",
    b"a\\x5C\\",
    b"a\xff",
];

// The strict reading refuses the text.
fn is_refused(alloc: Global, text: &[u8]) -> Result<bool, NoMemory> {
    Ok(unescape_strict(alloc, text)?.is_none())
}

#[test]
fn the_strict_reading_refuses_what_no_escape_is(rt: HostRuntime) -> Result<(), Fail> {
    for text in REFUSED {
        assert!(rt; is_refused(rt.alloc(), text)?, "at {text:?}");
    }
    Ok(())
}

// A text, and the bytes that the lenient reading takes it for.
const TAKEN: &[(&[u8], &[u8])] = &[
    (b"", b""),
    (b"\\x5c", b"\x5c"),
    (b"\\x4", b"\\x4"),
    (b"\\xZZ", b"\\xZZ"),
    (b"\\X41", b"\\X41"),
    (b"a\\x4", b"a\\x4"),
    (b"\\\\x41\\", b"\\A\\"),
    (b"\\x5Cx41\t\\xfF", b"\\x41\t\xff"),
];

#[test]
fn the_lenient_reading_takes_what_anybody_wrote(rt: HostRuntime) -> Result<(), Fail> {
    for (text, bytes) in TAKEN {
        assert!(rt; is_taken(rt.alloc(), text, bytes)?, "at {text:?}");
    }
    Ok(())
}

// Each byte once.
fn each_byte() -> [u8; 256] {
    let mut bytes = [0u8; 256];
    for byte in 0..=255u8 {
        bytes[byte as usize] = byte;
    }
    bytes
}

#[test]
fn both_readings_give_each_byte_again(rt: HostRuntime) -> Result<(), Fail> {
    lenient_undoes_escape();
    let bytes = each_byte();
    let text = escape(rt.alloc(), &bytes)?;
    // 94 bytes stand, and 162 are four letters each.
    assert!(rt; text.as_slice().len() == 742);
    assert!(rt; is_taken(rt.alloc(), text.as_slice(), &bytes)?);
    assert!(rt; is_read(rt.alloc(), text.as_slice(), &bytes)?);
    Ok(())
}
