// Escapes are written by runs: the bytes that stand are appended as one slice, and what ends the run
// by its digits.
ghost use Rattle.std.specs.Prelude.{◌≡◌, ◌+◌, ◌<◌, false, ◌++◌, take, vec_len, IfOk, OnOk, OnErr};
ghost use Rattle.feature_escape.specs.Escape.{escape_of, escaped, hex_capital, stands};

use crate::search::first_escaped;
use byte_kit::{Bytes, NoMemory};
use std::alloc::Global;

/// The escape of the bytes. Its one refusal is want of memory.
pub fn escape(alloc: Global, bytes: &[u8]) -> Result<Bytes, NoMemory>
    ensures { IfOk result (λ text. text ≡ escape_of bytes.now) }
{
    let mut text = Vec::with_capacity(alloc, bytes.len())?;
    escape_into(bytes, &mut text)?;
    Ok(Bytes::from(text))
}

/// Appends the escape of the bytes, as for a line that is made of several. Its one refusal is want of
/// memory, which leaves the items as they were.
pub fn escape_into(bytes: &[u8], into: &mut Vec<u8>) -> Result<(), NoMemory>
    ensures appended { OnOk result (into.new.items ≡ into.old.items ++ escape_of bytes.now) }
    ensures same { OnErr result (into.new.items ≡ into.old.items) }
{
    let held = into.len();
    if let Err(refusal) = push_escape(bytes, into) {
        into.truncate(held);
        return Err(refusal);
    }
    Ok(())
}

// Appends the escape, or for want of memory some front of it.
fn push_escape(bytes: &[u8], into: &mut Vec<u8>) -> Result<(), NoMemory>
    ensures appended { OnOk result (into.new.items ≡ into.old.items ++ escape_of bytes.now) }
    ensures front { take (vec_len into.old) into.new.items ≡ into.old.items }
{
    let mut rest = bytes;
    while let Some(at) = first_escaped(rest) {
        let (run, other) = rest.split_at(at);
        into.extend_from_slice(run)?;
        into.extend_from_slice(&digits_of(other[0]))?;
        rest = other.split_at(1).1;
    }
    into.extend_from_slice(rest)?;
    Ok(())
}

// `\x` and the two digits of a byte that does not stand, the high one first.
pub(crate) fn digits_of(byte: u8) -> [u8; 4]
    requires { stands byte ≡ false }
    ensures { result ≡ escaped byte }
{
    [b'\\', b'x', hex_capital(byte / 16), hex_capital(byte % 16)]
}

// The capital that is a hexadecimal digit.
fn hex_capital(digit: u8) -> u8
    requires { digit < 16 }
    ensures { result ≡ hex_capital digit }
{
    if digit < 10 {
        b'0' + digit
    } else {
        b'A' - 10 + digit
    }
}
