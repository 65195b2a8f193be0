// The search of a buffer for runs of hexadecimal digits.
//
// It costs one mask for sixteen bytes where no digits stand in a row, and each byte of a run is looked at two
// or three times, sixteen at a time.
ghost use Rattle.std.specs.Prelude.{◌≡◌, ◌++◌, OnOk, OnErr};
ghost use Rattle.sbuf_nest.specs.Marks.{owned_marks, AppendsFirst};
ghost use Rattle.decode_hex.specs.Starts.{hex_starts};

use crate::hex_run;
use crate::run::HexDigits;
use byte_kit::NoMemory;
use forensic_path::Decoder;
use sbuf_nest::{Look, Places, Sbuf, Search, Start, Starts, find_marks, next_row};

/// Appends the starts of the runs of hexadecimal digits at the places that the buffer owns, in order of
/// place; the extent is `hex_run` there. Its one refusal is want of memory, which leaves the first few of
/// these starts appended.
pub fn find_runs(sb: &Sbuf, starts: &mut Starts) -> Result<(), NoMemory>
    ensures ok { OnOk result (starts.new ≡ starts.old ++ owned_marks hex_starts sb.now) }
    ensures err { OnErr result (AppendsFirst starts.old starts.new (owned_marks hex_starts sb.now)) }
{
    find_marks(sb, &mut HexSearch, starts)
}

// The search for runs of digits.
#[derive(Drop)]
struct HexSearch;

impl Search for HexSearch {
    type Item = Start;

    ghost judge = { λ _. hex_starts };

    // The next place with enough digits in a row, behind the run that `next` may stand in.
    fn next_places(&mut self, sb: &Sbuf, next: usize) -> Option<Places> {
        let at = next_row::<HexDigits>(sb.bytes, next, sb.own_to());
        if at == sb.own_to() {
            return None;
        }
        Some(Places {
            from: at,
            to: at + 1,
        })
    }

    fn marks_into(
        &mut self,
        look: &Look,
        place: usize,
        starts: &mut Starts,
    ) -> Result<(), NoMemory> {
        starts.add_text(place, Decoder::Hex, hex_run(look))
    }
}
