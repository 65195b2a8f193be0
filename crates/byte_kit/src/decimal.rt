// Decimals: `0`, or digits without a leading zero.
ghost use Rattle.std.specs.Prelude.{ℕ, ◌≡◌, ◌≢◌, ◌^◌, ◌<◌, ◌++◌, length, take, drop, IfSome, IfNone, OnOk, OnErr};
ghost use Rattle.std.specs.Fmt.{decimal};

use crate::NoMemory;
use itoa::Buffer;
use std::str::from_utf8;

/// Reads a decimal below 2^64. None where the bytes are none, as an empty text, a sign or a leading zero.
pub fn dec_read(bytes: &[u8]) -> Option<u64>
    ensures value { IfSome result (λ n. decimal n ≡ bytes.now) }
    ensures none { IfNone result ((n : ℕ) → n < 2 ^ 64 → decimal n ≢ bytes.now) }
{
    let first = *bytes.first()?;
    if first == b'+' || (first == b'0' && bytes.len() > 1) {
        return None;
    }
    let Ok(text) = from_utf8(bytes) else {
        return None;
    };
    text.parse().ok()
}

/// Writes a number in decimal, and gives the number of digits, which stand first. What stands
/// behind them is what stood there.
pub fn dec_write(number: u64, into: &mut [u8; 20]) -> usize
    ensures count { result ≡ length (decimal number) }
    ensures digits { take result into.new ≡ decimal number }
    ensures rest { drop result into.new ≡ drop result into.old }
{
    let mut buffer = Buffer::new();
    let digits = buffer.format(number).as_bytes();
    let (front, _) = into.split_at_mut(digits.len());
    front.copy_from_slice(digits);
    digits.len()
}

/// Appends a number in decimal. Refused for want of memory, it leaves the bytes as they were.
pub fn dec_into(number: u64, into: &mut Vec<u8>) -> Result<(), NoMemory>
    ensures pushed { OnOk result (into.new.items ≡ into.old.items ++ decimal number) }
    ensures same { OnErr result (into.new.items ≡ into.old.items) }
{
    into.extend_from_slice(Buffer::new().format(number).as_bytes())?;
    Ok(())
}
