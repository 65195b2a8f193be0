// The word at a place.
ghost use Rattle.std.specs.Prelude.{◌≡◌, ◌≤◌};
ghost use Rattle.std.specs.List.{prefix_len};
ghost use Rattle.byte_kit.specs.Classes.{word_class};
ghost use Rattle.sbuf_nest.specs.Around.{seen};
ghost use Rattle.sbuf_nest.specs.Edges.{begins_run};
ghost use Rattle.scan_wordlist.specs.declared.TheConstants.{WORD_MOST};
ghost use Rattle.scan_wordlist.specs.Word.{word_of, IsRunUpTo};

use crate::WORD_MOST;
use crate::filter::{StrangerTest, next_near};
use byte_kit::is_word;
use sbuf_nest::Look;
use vector_search::LANES;

/// The length in bytes of the word at the place: a whole run of the bytes 33 to 126, of at least `min`
/// and at most `max` bytes, which are 1 to `WORD_MOST`. None exactly where such a byte stands right
/// ahead of the place, or the run from it on is shorter or longer.
#[tactic(auto, unfolding(crate::specs::Word::word_of))]
pub fn word_len(look: &Look, min: u16, max: u16) -> Option<u32>
    requires least { 1 ≤ min }
    requires ordered { min ≤ max }
    requires most { max ≤ WORD_MOST }
    ensures { result ≡ word_of min max (seen look.now) }
{
    if !begins_run(look) {
        return None;
    }
    let run = run_of(look.after, max);
    if run < min as usize || run > max as usize {
        return None;
    }
    Some(run as u32)
}

// No byte of a word stands right ahead of the place.
fn begins_run(look: &Look) -> bool
    ensures { result ≡ begins_run word_class (seen look.now) }
{
    match look.before.last() {
        None => true,
        Some(byte) => !is_word(*byte),
    }
}

// How many bytes of a word stand in front, or some number above `max` where more do. As many bytes are
// looked at as masks have that tell it.
fn run_of(bytes: &[u8], max: u16) -> usize
    requires { max ≤ WORD_MOST }
    ensures { IsRunUpTo max (prefix_len word_class bytes.now) result }
{
    let near = (max as usize / LANES * LANES + LANES).min(bytes.len());
    next_near(&StrangerTest, bytes, 0, near)
}
