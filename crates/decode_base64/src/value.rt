// The value of a Base64 text.
//
// The letters are gathered behind the room for the value, and made up to groups of four by letters whose
// bits are all 0; the bytes that these add are cut off.
ghost use Rattle.std.specs.Prelude.{◌≡◌, ◌<◌, ◌≤◌, ◌%◌, ◌/◌, ◌*◌, ◌++◌, [], length, take, drop, filter, flat_map, IsTrue, OnOk, OnErr};
ghost use Rattle.std.specs.List.{AllPass};
ghost use Rattle.byte_kit.specs.Classes.{base64_class};
ghost use Rattle.decode_base64.specs.Base64.{base64_value, bytes_of, letter_number, six_bits};
ghost use Rattle.decode_base64.specs.Text.{letter_count, IsText};

use crate::letters::letters_len;
use byte_kit::NoMemory;
use sbuf_nest::Extent;

// The letter that is 0.
const ZERO: u8 = b'A';

/// Puts the value of the text of this extent at the front of `after` in place of what `into` has: six bits
/// a letter, the high one first (RFC 4648 section 4), without the bits behind the last whole byte. It asks
/// for an extent that `b64_text` gave where these bytes stand. Its one refusal is want of memory, which
/// leaves `into` empty; where `into` has room for seven bytes for each four letters, no memory is taken.
pub fn b64_value(after: &[u8], extent: Extent, into: &mut Vec<u8>) -> Result<(), NoMemory>
    requires given { IsText after.now extent }
    ensures value { OnOk result (into.new.items ≡ base64_value (take extent.bytes after.now)) }
    ensures refused { OnErr result (into.new.items ≡ []) }
{
    into.clear();
    let letters = extent.units as usize;
    let groups = letters.div_ceil(4);
    into.resize(7 * groups, ZERO)?;
    let (text, _) = after.split_at(extent.bytes as usize);
    decode_text(text, groups, into.as_mut_slice());
    into.truncate(letters * 6 / 8);
    Ok(())
}

// Decodes the letters of a text to the front of the room, which is full of letters and has seven bytes for
// each group of four: three for the value, and behind these four for the letters.
fn decode_text(text: &[u8], groups: usize, room: &mut [u8])
    requires room { length room.old ≡ 7 * groups }
    requires letters { AllPass base64_class room.old }
    requires enough { letter_count text.now ≤ 4 * groups }
    ensures { take (letter_count text.now * 6 / 8) room.new ≡ base64_value text.now }
{
    let (value, letters) = room.split_at_mut(3 * groups);
    gather_letters(text, letters);
    decode_groups(letters, value);
}

// Puts the letters of a text to the front of the room.
fn gather_letters(text: &[u8], room: &mut [u8])
    requires { letter_count text.now ≤ length room.old }
    ensures { room.new ≡ filter base64_class text.now ++ drop (letter_count text.now) room.old }
{
    let mut at = 0;
    let mut count = 0;
    while at < text.len() {
        let (_, rest) = text.split_at(at);
        let (line, _) = rest.split_at(letters_len(rest));
        room[count..count + line.len()].copy_from_slice(line);
        count += line.len();
        // Behind a line stands a byte of a line break, or the end.
        at += line.len() + 1;
    }
}

// Decodes groups of four letters, three bytes for each.
fn decode_groups(letters: &[u8], value: &mut [u8])
    requires letters { AllPass base64_class letters.now }
    requires whole { length letters.now % 4 ≡ 0 }
    requires room { length value.old ≡ length letters.now / 4 * 3 }
    ensures { value.new ≡ bytes_of (flat_map six_bits letters.now) }
{
    for group in 0..value.len() / 3 {
        let fourth = letter_number(letters[4 * group + 3]);
        let third = letter_number(letters[4 * group + 2]);
        let second = letter_number(letters[4 * group + 1]);
        let first = letter_number(letters[4 * group]);
        value[3 * group] = 4 * first + second / 16;
        value[3 * group + 1] = 16 * (second % 16) + third / 4;
        value[3 * group + 2] = 64 * (third % 4) + fourth;
    }
}

// The number of a letter.
#[inline(always)]
fn letter_number(letter: u8) -> u8
    requires { IsTrue (base64_class letter) }
    ensures number { result ≡ letter_number letter }
    ensures below { result < 64 }
{
    NUMBERS[letter as usize]
}

// Each letter's number at the place that is its byte; no other entry is read.
static NUMBERS: [u8; 256] = [
    0, 0, 0, 0, 0, 0, 0, 0, 0, 0, 0, 0, 0, 0, 0, 0, 0, 0, 0, 0, 0, 0, 0, 0, 0, 0, 0, 0, 0, 0, 0, 0,
    0, 0, 0, 0, 0, 0, 0, 0, 0, 0, 0, 62, 0, 0, 0, 63, 52, 53, 54, 55, 56, 57, 58, 59, 60, 61, 0, 0,
    0, 0, 0, 0, 0, 0, 1, 2, 3, 4, 5, 6, 7, 8, 9, 10, 11, 12, 13, 14, 15, 16, 17, 18, 19, 20, 21,
    22, 23, 24, 25, 0, 0, 0, 0, 0, 0, 26, 27, 28, 29, 30, 31, 32, 33, 34, 35, 36, 37, 38, 39, 40,
    41, 42, 43, 44, 45, 46, 47, 48, 49, 50, 51, 0, 0, 0, 0, 0, 0, 0, 0, 0, 0, 0, 0, 0, 0, 0, 0, 0,
    0, 0, 0, 0, 0, 0, 0, 0, 0, 0, 0, 0, 0, 0, 0, 0, 0, 0, 0, 0, 0, 0, 0, 0, 0, 0, 0, 0, 0, 0, 0, 0,
    0, 0, 0, 0, 0, 0, 0, 0, 0, 0, 0, 0, 0, 0, 0, 0, 0, 0, 0, 0, 0, 0, 0, 0, 0, 0, 0, 0, 0, 0, 0, 0,
    0, 0, 0, 0, 0, 0, 0, 0, 0, 0, 0, 0, 0, 0, 0, 0, 0, 0, 0, 0, 0, 0, 0, 0, 0, 0, 0, 0, 0, 0, 0, 0,
    0, 0, 0, 0, 0, 0, 0, 0, 0, 0, 0, 0, 0, 0, 0, 0, 0, 0, 0, 0,
];
