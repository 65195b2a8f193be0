// A block: what it holds, and zeros behind it.
ghost use Rattle.std.specs.Prelude.{◌≡◌, ◌+◌, ◌≤◌, ◌++◌, codes, length, OnOk};
ghost use Rattle.image_gen.specs.Blocks.{block_of, letters_of, lines_of, link_of, packet_of, seen_line, text_of, widened};
ghost use Rattle.hex.specs.Hex.{encode_lower};

use crate::kind::Kind;
use crate::packet::{ETHERNET, ipv4_header};
use crate::url::{link_of, note_of, url_of};
use base64::engine::general_purpose::STANDARD;
use byte_kit::NoMemory;

// How many bytes a block has.
pub(crate) const BLOCK_SIZE: usize = 4096;

// The front of an ELF header: a program for x86-64.
static ELF_FRONT: [u8; 20] = [
    0x7f, b'E', b'L', b'F', 2, 1, 1, 0, 0, 0, 0, 0, 0, 0, 0, 0, 2, 0, 0x3e, 0,
];

// The front of a gzip file.
static GZIP_FRONT: [u8; 4] = [0x1f, 0x8b, 8, 0];

// Appends the block with this number, for this random word.
pub(crate) fn push_block(number: usize, word: u64, image: &mut Vec<u8>) -> Result<(), NoMemory>
    ensures { OnOk result (image.new.items ≡ image.old.items ++ block_of number word) }
{
    let front = image.len();
    push_text(Kind::of(number), word, image)?;
    image.resize(front + BLOCK_SIZE, 0)?;
    Ok(())
}

// Appends what a block of this kind holds.
#[tactic(auto, unfolding(crate::specs::Blocks::text_of))]
fn push_text(kind: Kind, word: u64, into: &mut Vec<u8>) -> Result<(), NoMemory>
    ensures { OnOk result (into.new.items ≡ into.old.items ++ text_of kind word) }
{
    match kind {
        Kind::Line => push_line(word, into),
        Kind::Base64 => push_lines(&letters_of(word), 32, into),
        Kind::Wide => push_wide(&link_of(word), into),
        Kind::Packet => push_packet(word, into),
        Kind::Empty => Ok(()),
        Kind::Elf => push(&ELF_FRONT, into),
        Kind::Gzip => push(&GZIP_FRONT, into),
        Kind::Hex => push_hex(word, into),
    }
}

// Appends bytes that every block of a kind has.
fn push(bytes: &[u8], into: &mut Vec<u8>) -> Result<(), NoMemory>
    ensures { OnOk result (into.new.items ≡ into.old.items ++ bytes.now) }
{
    into.extend_from_slice(bytes)?;
    Ok(())
}

fn push_line(word: u64, into: &mut Vec<u8>) -> Result<(), NoMemory>
    ensures { OnOk result (into.new.items ≡ into.old.items ++ seen_line word) }
{
    into.extend_from_slice(b"Seen at ")?;
    into.extend_from_slice(&url_of(word))?;
    into.extend_from_slice(b" and kept.\n")?;
    Ok(())
}

// Appends letters in three lines: two of so many letters, and one of what is left.
#[tactic(auto, unfolding(crate::specs::Blocks::lines_of))]
fn push_lines(letters: &[u8], size: usize, into: &mut Vec<u8>) -> Result<(), NoMemory>
    requires { size + size ≤ length letters.now }
    ensures { OnOk result (into.new.items ≡ into.old.items ++ lines_of size letters.now) }
{
    let (first, rest) = letters.split_at(size);
    let (second, last) = rest.split_at(size);
    push_ended(first, into)?;
    push_ended(second, into)?;
    push_ended(last, into)
}

// The letters of a note in Base64, with padding.
#[tactic(auto, unfolding(crate::specs::Blocks::letters_of))]
fn letters_of(word: u64) -> [u8; 68]
    ensures { result ≡ letters_of word }
{
    let mut letters = [0; 68];
    let Ok(_) = STANDARD.encode_slice(&note_of(word), &mut letters) else {
        unreachable!();
    };
    letters
}

// Appends a line, and the CR LF at its end.
fn push_ended(line: &[u8], into: &mut Vec<u8>) -> Result<(), NoMemory>
    ensures { OnOk result (into.new.items ≡ into.old.items ++ line.now ++ codes "\r\n") }
{
    into.extend_from_slice(line)?;
    into.extend_from_slice(b"\r\n")?;
    Ok(())
}

// Appends the bytes of a text, each with a zero byte behind it.
fn push_wide(text: &[u8], into: &mut Vec<u8>) -> Result<(), NoMemory>
    ensures { OnOk result (into.new.items ≡ into.old.items ++ widened text.now) }
{
    for byte in text {
        into.extend_from_slice(&[*byte, 0])?;
    }
    Ok(())
}

fn push_packet(word: u64, into: &mut Vec<u8>) -> Result<(), NoMemory>
    ensures { OnOk result (into.new.items ≡ into.old.items ++ packet_of word) }
{
    let from = (word % 256) as u8;
    let to = (word / 256 % 256) as u8;
    into.extend_from_slice(&ETHERNET)?;
    into.extend_from_slice(&ipv4_header(from, to))?;
    Ok(())
}

fn push_hex(word: u64, into: &mut Vec<u8>) -> Result<(), NoMemory>
    ensures { OnOk result (into.new.items ≡ into.old.items ++ encode_lower (link_of word)) }
{
    let mut digits = [0; 60];
    let Ok(()) = hex::encode_to_slice(link_of(word), &mut digits) else {
        unreachable!();
    };
    into.extend_from_slice(&digits)?;
    Ok(())
}
