// The bytes that a run of hexadecimal digits stands for.
ghost use Rattle.std.specs.Prelude.{◌≡◌, ◌*◌, ◌<◌, [], length, take, IsTrue, OnOk, OnErr};
ghost use Rattle.std.specs.List.{AllPass};
ghost use Rattle.byte_kit.specs.Classes.{hex_class};
ghost use Rattle.decode_hex.specs.Hex.{hex_value, digit_number, IsText};

use byte_kit::NoMemory;
use sbuf_nest::Extent;

/// The value of the run of digits at the front of the bytes (`hex_value` of `specs/Hex.antt`), in place of
/// what `into` held. It asks for an extent that [`hex_run`](crate::hex_run) gave at a place from which on
/// these are the bytes. Its one refusal is want of memory, which leaves `into` empty.
pub fn hex_value(after: &[u8], extent: Extent, into: &mut Vec<u8>) -> Result<(), NoMemory>
    requires given { IsText after.now extent }
    ensures value { OnOk result (into.new.items ≡ hex_value (take extent.bytes after.now)) }
    ensures refused { OnErr result (into.new.items ≡ []) }
{
    let digits = &after[..extent.bytes as usize];
    into.clear();
    into.resize(digits.len() / 2, 0)?;
    decode_into(digits, into.as_mut_slice());
    Ok(())
}

// Writes the value of an even number of digits, which fills the bytes.
fn decode_into(digits: &[u8], into: &mut [u8])
    requires digits { AllPass hex_class digits.now }
    requires room { length digits.now ≡ 2 * length into.old }
    ensures { into.new ≡ hex_value digits.now }
{
    for (at, byte) in into.iter_mut().enumerate() {
        *byte = 16 * digit_number(digits[2 * at]) + digit_number(digits[2 * at + 1]);
    }
}

// The number of a digit.
#[inline(always)]
fn digit_number(digit: u8) -> u8
    requires { IsTrue (hex_class digit) }
    ensures number { result ≡ digit_number digit }
    ensures below { result < 16 }
{
    NUMBERS[digit as usize]
}

// Each digit's number at the place that is its byte; no other entry is read.
static NUMBERS: [u8; 256] = [
    0, 0, 0, 0, 0, 0, 0, 0, 0, 0, 0, 0, 0, 0, 0, 0, 0, 0, 0, 0, 0, 0, 0, 0, 0, 0, 0, 0, 0, 0, 0, 0,
    0, 0, 0, 0, 0, 0, 0, 0, 0, 0, 0, 0, 0, 0, 0, 0, 0, 1, 2, 3, 4, 5, 6, 7, 8, 9, 0, 0, 0, 0, 0, 0,
    0, 10, 11, 12, 13, 14, 15, 0, 0, 0, 0, 0, 0, 0, 0, 0, 0, 0, 0, 0, 0, 0, 0, 0, 0, 0, 0, 0, 0, 0,
    0, 0, 0, 10, 11, 12, 13, 14, 15, 0, 0, 0, 0, 0, 0, 0, 0, 0, 0, 0, 0, 0, 0, 0, 0, 0, 0, 0, 0, 0,
    0, 0, 0, 0, 0, 0, 0, 0, 0, 0, 0, 0, 0, 0, 0, 0, 0, 0, 0, 0, 0, 0, 0, 0, 0, 0, 0, 0, 0, 0, 0, 0,
    0, 0, 0, 0, 0, 0, 0, 0, 0, 0, 0, 0, 0, 0, 0, 0, 0, 0, 0, 0, 0, 0, 0, 0, 0, 0, 0, 0, 0, 0, 0, 0,
    0, 0, 0, 0, 0, 0, 0, 0, 0, 0, 0, 0, 0, 0, 0, 0, 0, 0, 0, 0, 0, 0, 0, 0, 0, 0, 0, 0, 0, 0, 0, 0,
    0, 0, 0, 0, 0, 0, 0, 0, 0, 0, 0, 0, 0, 0, 0, 0, 0, 0, 0, 0, 0, 0, 0, 0, 0, 0, 0, 0, 0, 0, 0, 0,
    0, 0, 0, 0,
];
