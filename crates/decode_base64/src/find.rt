// The search of a buffer for where Base64 texts begin.
//
// It judges the places where as many letters stand in a row as the first line of a text has. A run is
// judged once, at its first place, and a line of mail is passed over where it goes on the line ahead of it. The
// texts of two places don't overlap, so each byte is measured about twice.
ghost use Rattle.std.specs.Prelude.{◌≡◌, ◌≤◌, ◌++◌, length, OnOk, OnErr};
ghost use Rattle.byte_kit.specs.Classes.{base64_class};
ghost use Rattle.sbuf_nest.specs.Marks.{owned_marks, NoneFrom, AppendsFirst};
ghost use Rattle.sbuf_nest.specs.Runs.{NoRowFrom};
ghost use Rattle.decode_base64.specs.Starts.{base64_starts};
ghost use Rattle.decode_base64.specs.declared.TheConstants.{LINE_LEAST};

use crate::b64_text;
use crate::letters::Letters;
use crate::text::follows_line;
use byte_kit::NoMemory;
use forensic_path::Decoder;
use sbuf_nest::{Look, Places, Sbuf, Search, Start, Starts, find_marks, next_row, past_run};

/// Appends where the Base64 texts begin among the places that the buffer owns, in order of place; the
/// extent is `b64_text` there. Its one refusal is want of memory, which leaves the first few of these
/// starts appended.
pub fn find_texts(sb: &Sbuf, starts: &mut Starts) -> Result<(), NoMemory>
    ensures ok { OnOk result (starts.new ≡ starts.old ++ owned_marks base64_starts sb.now) }
    ensures err { OnErr result (AppendsFirst starts.old starts.new (owned_marks base64_starts sb.now)) }
{
    find_marks(sb, &mut TextSearch, starts)
}

// The search for the starts of texts.
#[derive(Drop)]
struct TextSearch;

impl Search for TextSearch {
    type Item = Start;

    ghost judge = { λ _. base64_starts };

    // The next place where enough letters stand in a row, behind the lines of the text that `next` may stand in.
    fn next_places(&mut self, sb: &Sbuf, next: usize) -> Option<Places> {
        let from = past_lines(sb, next);
        let at = next_row::<Letters>(sb.bytes, from, sb.own_to());
        if at == sb.own_to() {
            return None;
        }
        Some(Places {
            from: at,
            to: at + 1,
        })
    }

    fn marks_into(
        &mut self,
        look: &Look,
        place: usize,
        starts: &mut Starts,
    ) -> Result<(), NoMemory> {
        starts.add_text(place, Decoder::Base64, b64_text(look))
    }
}

// A place from `next` on ahead of which no text begins: behind the line that `next` may stand in, and behind each
// line that goes on the one ahead of it.
fn past_lines(sb: &Sbuf, next: usize) -> usize
    requires { next ≤ sb.now.own_to }
    ensures low { next ≤ result }
    ensures high { result ≤ sb.now.own_to }
    ensures none { NoneFrom base64_starts sb.now.bytes.now next result }
{
    let mut at = past_line(sb, next);
    while at < sb.own_to() && follows_line(sb.look(at).before) {
        at = past_line(sb, at + 1);
    }
    at
}

// The place behind the run of letters that `next` may stand in, and behind the line break that ends it.
fn past_line(sb: &Sbuf, next: usize) -> usize
    requires { next ≤ sb.now.own_to }
    ensures low { next ≤ result }
    ensures high { result ≤ sb.now.own_to }
    ensures none { NoneFrom base64_starts sb.now.bytes.now next result }
{
    let behind = past_run::<Letters>(sb.bytes, next, sb.own_to());
    past_break(sb.bytes, behind, sb.own_to())
}

// The place behind the bytes of a line break at `next`, if one stands there.
fn past_break(bytes: &[u8], next: usize, to: usize) -> usize
    requires ordered { next ≤ to }
    requires within { to ≤ length bytes.now }
    ensures low { next ≤ result }
    ensures high { result ≤ to }
    ensures none { NoRowFrom base64_class LINE_LEAST bytes.now next result }
{
    for place in next..to {
        if bytes[place] != b'\r' && bytes[place] != b'\n' {
            return place;
        }
    }
    to
}
