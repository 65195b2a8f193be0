// Texts are read by runs: what stands is appended as one slice, and what ends the run is judged where
// it begins.
ghost use Rattle.std.specs.Prelude.{◌≡◌, ◌+◌, ◌*◌, ◌<◌, ◌≤◌, true, false, ◌∷◌, ◌++◌, ◌==◌, ◌&&◌, not, nat_eq, length, drop, position, IfOk, IfSome, IfNone};
ghost use Rattle.std.specs.List.{starts_with};
ghost use Rattle.byte_kit.specs.Classes.{hex_class};
ghost use Rattle.feature_escape.specs.Escape.{AreBytes, BeginsNoEscape, IsNoEscape, begins_escape, digit_worth, escape_of, escaped, stands, unescape_lenient_of};

use crate::search::{first_escaped, stands};
use crate::write::digits_of;
use byte_kit::{Bytes, NoMemory, is_hex};
use std::alloc::Global;

/// The bytes whose escape the text is, or `None` exactly where it is the escape of no bytes: digits
/// in small letters are refused, and so is an escape of a byte that stands for itself. Its one refusal
/// besides is want of memory.
pub fn unescape_strict(alloc: Global, text: &[u8]) -> Result<Option<Bytes>, NoMemory>
    ensures some { IfOk result (λ read. IfSome read (λ bytes. AreBytes bytes × (escape_of bytes ≡ text.now))) }
    ensures none { IfOk result (λ read. IfNone read (IsNoEscape text.now)) }
{
    let mut bytes = Vec::with_capacity(alloc, text.len())?;
    let mut rest = text;
    while let Some(at) = first_escaped(rest) {
        let (run, other) = rest.split_at(at);
        bytes.extend_from_slice(run)?;
        let Some(byte) = escape_ahead(other) else {
            return Ok(None);
        };
        bytes.push(byte)?;
        rest = other.split_at(4).1;
    }
    bytes.extend_from_slice(rest)?;
    Ok(Some(Bytes::from(bytes)))
}

/// The bytes of a text that anybody wrote: `\x` and two hexadecimal digits of either case are one
/// byte, and every other byte is itself. Every text is read so, and the one refusal is want of memory.
pub fn unescape_lenient(alloc: Global, text: &[u8]) -> Result<Bytes, NoMemory>
    ensures { IfOk result (λ bytes. bytes ≡ unescape_lenient_of text.now) }
{
    let mut bytes = Vec::with_capacity(alloc, text.len())?;
    let mut rest = text;
    while let Some(at) = first_backslash(rest) {
        let (run, other) = rest.split_at(at);
        bytes.extend_from_slice(run)?;
        let (byte, count) = first_read(other);
        bytes.push(byte)?;
        rest = other.split_at(count).1;
    }
    bytes.extend_from_slice(rest)?;
    Ok(Bytes::from(bytes))
}

// The index of the first backslash.
fn first_backslash(text: &[u8]) -> Option<usize>
    ensures { result ≡ position (λ byte. byte == 92) text.now }
{
    text.iter().position(|byte| *byte == b'\\')
}

// The byte whose escape the text begins with, if it is one that does not stand.
fn escape_ahead(text: &[u8]) -> Option<u8>
    requires { 0 < length text.now }
    ensures some { IfSome result (λ byte. (stands byte ≡ false) × (text.now ≡ escaped byte ++ drop 4 text.now)) }
    ensures none { IfNone result (BeginsNoEscape text.now) }
{
    let (byte, _) = first_read(text);
    if begins_escape_of(text, byte) {
        Some(byte)
    } else {
        None
    }
}

// Whether a text begins with the escape of a byte that does not stand.
fn begins_escape_of(text: &[u8], byte: u8) -> bool
    ensures { result ≡ (not (stands byte) && starts_with nat_eq text.now (escaped byte)) }
{
    !stands(byte) && text.starts_with(&digits_of(byte))
}

// The first byte of the lenient reading of a text, and how many bytes of the text it is read from.
#[tactic(auto, using(crate::proofs::Digits::read_escape, crate::proofs::Digits::read_itself))]
fn first_read(text: &[u8]) -> (u8, usize)
    requires { 0 < length text.now }
    ensures read { unescape_lenient_of text.now ≡ result.0 ∷ unescape_lenient_of (drop result.1 text.now) }
    ensures some { 0 < result.1 }
    ensures within { result.1 ≤ length text.now }
{
    if begins_escape(text) {
        return (digit_worth(text[2]) * 16 + digit_worth(text[3]), 4);
    }
    (text[0], 1)
}

// Whether a text begins with `\x` and two hexadecimal digits of either case.
fn begins_escape(text: &[u8]) -> bool
    ensures { result ≡ begins_escape text.now }
{
    text.len() >= 4 && text[0] == b'\\' && text[1] == b'x' && is_hex(text[2]) && is_hex(text[3])
}

// What a hexadecimal digit of either case is worth.
#[tactic(auto, using(crate::proofs::Digits::hex_cases))]
fn digit_worth(digit: u8) -> u8
    requires { hex_class digit ≡ true }
    ensures worth { result ≡ digit_worth digit }
    ensures small { result < 16 }
{
    match digit {
        b'0'..=b'9' => digit - b'0',
        b'A'..=b'F' => digit - b'A' + 10,
        _ => digit - b'a' + 10,
    }
}
