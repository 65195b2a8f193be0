// The Base64 text at a place.
ghost use Rattle.std.specs.Prelude.{◌≡◌, ◌≤◌, ◌*◌, min, length, take, find, nat_eq, filter};
ghost use Rattle.std.specs.List.{prefix_len, list_any, starts_with};
ghost use Rattle.std.specs.Option.{option_map_or};
ghost use Rattle.byte_kit.specs.Classes.{base64_class};
ghost use Rattle.sbuf_nest.specs.Around.{seen};
ghost use Rattle.decode_base64.specs.Base64.{line_breaks, ends_line, text_extent};
ghost use Rattle.decode_base64.specs.Text.{base64_text, IsNextLine};
ghost use Rattle.decode_base64.specs.declared.TheConstants.{LINE_LEAST, LETTERS_MOST};

use crate::letters::{Letters, letters_len};
use crate::{LETTERS_MOST, LINE_LEAST};
use sbuf_nest::{Extent, Look, begins_run};

/// The Base64 text that begins at the place: its bytes, line breaks included, and its letters. The first
/// line is a run of at least `LINE_LEAST` letters, ahead of which neither a letter stands nor a line break
/// behind so many letters. Each further line follows a line break, which is LF or CR LF; the last one is
/// the first that has another length than the first line has, or at which `LETTERS_MOST` letters are
/// reached. Padding is not taken.
pub fn b64_text(look: &Look) -> Option<Extent>
    ensures { result ≡ base64_text (seen look.now) }
{
    if !begins_run::<Letters>(look) || follows_line(look.before) {
        return None;
    }
    let width = letters_up_to(look.after, LETTERS_MOST);
    if width < LINE_LEAST {
        return None;
    }
    Some(text_from(look.after, width))
}

// A line break behind a line of at least `LINE_LEAST` letters stands right ahead.
pub(crate) fn follows_line(before: &[u8]) -> bool
    ensures { result ≡ list_any (ends_line before.now) line_breaks }
{
    ends_line(before, b"\n") || ends_line(before, b"\r\n")
}

fn ends_line(bytes: &[u8], line_break: &[u8]) -> bool
    ensures { result ≡ ends_line bytes.now line_break.now }
{
    if !bytes.ends_with(line_break) {
        return false;
    }
    let (line, _) = bytes.split_at(bytes.len() - line_break.len());
    let (_, last) = line.split_at(line.len().saturating_sub(LINE_LEAST));
    letters_len(last) == LINE_LEAST
}

// The text at the front, of whose first line so many letters are taken.
fn text_from(bytes: &[u8], width: usize) -> Extent
    requires first { width ≡ min (prefix_len base64_class bytes.now) LETTERS_MOST }
    requires some { 1 ≤ width }
    ensures bytes { result.bytes ≡ text_extent bytes.now }
    ensures units { result.units ≡ length (filter base64_class (take result.bytes bytes.now)) }
{
    let mut end = width;
    let mut letters = width;
    let mut last = width;
    while last == width && letters < LETTERS_MOST {
        let (_, behind) = bytes.split_at(end);
        let line = next_line(behind, LETTERS_MOST - letters);
        end += line.bytes;
        letters += line.letters;
        last = line.letters;
    }
    Extent {
        bytes: end as u32,
        units: letters as u32,
    }
}

// A line behind another one: the bytes of the line break ahead of it and of its letters, and the letters,
// as far as they are taken. Where there is none both are 0.
#[derive(Clone, Copy)]
struct Line {
    bytes: usize,
    letters: usize,
}

// The line at the front, of which up to `room` letters are taken.
fn next_line(bytes: &[u8], room: usize) -> Line
    requires { 1 ≤ room }
    ensures line { IsNextLine bytes.now room result.bytes result.letters }
    ensures within { result.bytes ≤ length bytes.now }
    ensures most { result.letters ≤ room }
    ensures reach { result.bytes ≤ 3 * result.letters }
{
    let ahead = break_len(bytes);
    let letters = letters_up_to(bytes.split_at(ahead).1, room);
    if ahead == 0 || letters == 0 {
        return Line {
            bytes: 0,
            letters: 0,
        };
    }
    Line {
        bytes: ahead + letters,
        letters,
    }
}

// How many bytes the line break in front has, 0 where there is none.
fn break_len(bytes: &[u8]) -> usize
    ensures value { result ≡ option_map_or length (find (starts_with nat_eq bytes.now) line_breaks) 0 }
    ensures within { result ≤ length bytes.now }
    ensures short { result ≤ 2 }
{
    if bytes.starts_with(b"\n") {
        return 1;
    }
    if bytes.starts_with(b"\r\n") {
        return 2;
    }
    0
}

// How many letters stand in front, at most so many.
fn letters_up_to(bytes: &[u8], most: usize) -> usize
    ensures letters { result ≡ min (prefix_len base64_class bytes.now) most }
    ensures within { result ≤ length bytes.now }
{
    let (front, _) = bytes.split_at(most.min(bytes.len()));
    letters_len(front)
}
