// The header of an executable at a place.
ghost use Rattle.std.specs.Prelude.{◌≡◌, ◌+◌, ◌≤◌, ◌==◌, [], ◌∷◌, length, option_map, if◌then◌else◌, IfSome};
ghost use Rattle.std.specs.Option.{SomeIff};
ghost use Rattle.byte_kit.specs.Classes.{is_one_of};
ghost use Rattle.byte_kit.specs.Numbers.{le16, be16};
ghost use Rattle.sbuf_nest.specs.Around.{seen};
ghost use Rattle.scan_exec.specs.Exec.{elf_of, pe_of, exec_of};
ghost use Rattle.scan_exec.specs.Headers.{header_of, IsKnown};

use crate::{DOS_SIZE, ELF_SIZE, PE_PLACE_MOST};
use byte_kit::{be16_at, le16_at, le32_at};
use sbuf_nest::Look;

/// The header of an executable file, as far as it is read.
#[derive(Clone, Copy, Debug, PartialEq, Eq)]
pub enum Exec {
    /// That of ELF (System V ABI, chapter 4, "ELF Header").
    Elf {
        /// Byte 4: 1 for files of 32 bits, 2 for those of 64.
        class: u8,
        /// Byte 5: 1 where numbers have their low byte first, 2 where they have the high one first.
        order: u8,
        /// What the file is for, such as 2 for a program.
        kind: u16,
        /// The machine that it is for.
        machine: u16,
    },
    /// That of PE (Microsoft PE Format, "COFF File Header").
    Pe {
        /// The machine that the file is for.
        machine: u16,
        /// How many sections it has.
        sections: u16,
        /// When it was made, in seconds since the start of 1970.
        time: u32,
    },
}

impl Exec {
    /// How many bytes the header has in front: `ELF_SIZE` or `DOS_SIZE`.
    #[tactic(auto, unfolding(crate::specs::Headers::header_of))]
    pub fn extent(&self) -> u32
        ensures { result ≡ (header_of self.now).extent }
    {
        match self {
            Exec::Elf { .. } => ELF_SIZE as u32,
            Exec::Pe { .. } => DOS_SIZE as u32,
        }
    }
}

/// The header of the executable at the place: that of ELF (System V ABI, chapter 4, "ELF Header"), or
/// else that of PE (Microsoft PE Format, "COFF File Header"). None exactly where neither stands there
/// as `exec_of` of `specs/Exec.antt` has it: an ELF header has a known class and byte order, version 1
/// and `ELF_SIZE` bytes; a PE header stands from `DOS_SIZE` to `PE_PLACE_MOST` bytes behind the place.
/// Class and byte order are those that `exec_text` asks for.
#[tactic(auto, unfolding(crate::specs::Exec::exec_of))]
pub fn exec_at(look: &Look) -> Option<Exec>
    ensures shape { option_map header_of result ≡ exec_of (seen look.now) }
    ensures known { IfSome result IsKnown }
{
    match elf_at(look.after) {
        Some(elf) => Some(elf),
        None => pe_at(look.after),
    }
}

// The ELF header that the bytes begin with.
#[tactic(auto, unfolding(crate::specs::Exec::elf_of, crate::specs::Headers::header_of, crate::specs::Headers::IsKnown))]
fn elf_at(bytes: &[u8]) -> Option<Exec>
    ensures shape { option_map header_of result ≡ elf_of bytes.now }
    ensures known { IfSome result IsKnown }
{
    if bytes.len() < ELF_SIZE || !bytes.starts_with(b"\x7fELF") {
        return None;
    }
    let class = bytes[4];
    let order = bytes[5];
    if !is_known(class) || !is_known(order) || bytes[6] != 1 {
        return None;
    }
    Some(Exec::Elf {
        class,
        order,
        kind: half_at(bytes, order, 16)?,
        machine: half_at(bytes, order, 18)?,
    })
}

// A class or a byte order that an ELF header may name.
fn is_known(byte: u8) -> bool
    ensures { result ≡ is_one_of (1 ∷ 2 ∷ []) byte }
{
    byte == 1 || byte == 2
}

// The two bytes from `at` on as a number, in the byte order of an ELF header.
fn half_at(bytes: &[u8], order: u8, at: usize) -> Option<u16>
    ensures { SomeIff result (at + 2 ≤ length bytes.now) (if order == 1 then le16 bytes.now at else be16 bytes.now at) }
{
    if order == 1 {
        le16_at(bytes, at)
    } else {
        be16_at(bytes, at)
    }
}

// The PE header that the MS-DOS header in front of the bytes leads to.
#[tactic(auto, unfolding(crate::specs::Exec::pe_of, crate::specs::Headers::header_of, crate::specs::Headers::IsKnown))]
fn pe_at(bytes: &[u8]) -> Option<Exec>
    ensures shape { option_map header_of result ≡ pe_of bytes.now }
    ensures known { IfSome result IsKnown }
{
    if bytes.len() < DOS_SIZE || !bytes.starts_with(b"MZ") {
        return None;
    }
    let at = le32_at(bytes, DOS_SIZE - 4)? as usize;
    if at < DOS_SIZE || at > PE_PLACE_MOST {
        return None;
    }
    let header = bytes.get(at..)?;
    if !header.starts_with(b"PE\0\0") {
        return None;
    }
    Some(Exec::Pe {
        machine: le16_at(header, 4)?,
        sections: le16_at(header, 6)?,
        time: le32_at(header, 8)?,
    })
}
