// The search of a buffer for runs of pairs.
//
// It goes by the places where two pairs stand in a row, sixteen at a time. The shortest run has two in a row at
// six of its places and one more, so a mask of sixteen tells of the twelve places ahead of it too. The pairs from a
// place that passes on are counted, and passed over where no run begins there. So a byte is read at most a few
// times, whatever the buffer holds: a run costs its counting, twice here and once where it is judged.
ghost use Rattle.std.specs.Prelude.{◌≡◌, ◌+◌, ◌≤◌, ◌++◌, length, IsTrue, OnOk, OnErr};
ghost use Rattle.sbuf_nest.specs.Marks.{owned_marks, NoneFrom, AppendsFirst};
ghost use Rattle.decode_views.specs.Starts.{utf16_starts};

use crate::pair_test::TwoPairsTest;
use crate::run::{ends_in_pair, pairs_in};
use crate::{PAIRS_LEAST, utf16_run};
use byte_kit::NoMemory;
use forensic_path::Decoder;
use sbuf_nest::{Look, Places, Sbuf, Search, Start, Starts, find_marks};
use vector_search::{LANES, PlaceTest, next_place};

// How far ahead of its last two pairs the shortest run begins.
const AHEAD: usize = 2 * (PAIRS_LEAST - 2);

// How many places a mask tells of: a run that begins at one of them has two pairs in a row at a place of the mask.
const TOLD: usize = AHEAD + LANES;

// How many places a step passes over, by four masks.
const STEP: usize = 4 * TOLD;

/// Appends the starts of the runs of pairs at the places that the buffer owns, in order of place; the
/// extent is `utf16_run` there. Its one refusal is want of memory, which leaves the first few of these
/// starts appended.
pub fn find_runs(sb: &Sbuf, starts: &mut Starts) -> Result<(), NoMemory>
    ensures ok { OnOk result (starts.new ≡ starts.old ++ owned_marks utf16_starts sb.now) }
    ensures err { OnErr result (AppendsFirst starts.old starts.new (owned_marks utf16_starts sb.now)) }
{
    find_marks(sb, &mut PairSearch, starts)
}

// The search for runs of pairs.
#[derive(Drop)]
struct PairSearch;

impl Search for PairSearch {
    type Item = Start;

    ghost judge = { λ _. utf16_starts };

    // The next place where a run may begin.
    fn next_places(&mut self, sb: &Sbuf, next: usize) -> Option<Places> {
        let at = next_run(sb.bytes, next, sb.own_to());
        if at == sb.own_to() {
            return None;
        }
        Some(Places {
            from: at,
            to: at + 1,
        })
    }

    fn marks_into(
        &mut self,
        look: &Look,
        place: usize,
        starts: &mut Starts,
    ) -> Result<(), NoMemory> {
        starts.add_text(place, Decoder::Utf16, utf16_run(look))
    }
}

// A place from `next` up to `to` ahead of which, from `next` on, no run of pairs begins: `to`, or a place
// where one may begin.
fn next_run(bytes: &[u8], next: usize, to: usize) -> usize
    requires ordered { next ≤ to }
    requires within { to ≤ length bytes.now }
    ensures low { next ≤ result }
    ensures high { result ≤ to }
    ensures none { NoneFrom utf16_starts bytes.now next result }
{
    let mut at = next_pairs(bytes, next, to);
    while at < to {
        let (before, after) = bytes.split_at(at);
        let pairs = pairs_in(after);
        if pairs >= PAIRS_LEAST && !ends_in_pair(before) {
            return at;
        }
        // A pair's zero byte begins none, and a pair stands right ahead of each place that is left.
        let behind = (to - at).min(2 * pairs + 1);
        at = next_pairs(bytes, at + behind, to);
    }
    to
}

// A place from `next` up to `to` ahead of which, from `next` on, no run of pairs begins: `to`, or a place
// where two pairs stand in a row.
#[inline(always)]
fn next_pairs(bytes: &[u8], next: usize, to: usize) -> usize
    requires ordered { next ≤ to }
    requires within { to ≤ length bytes.now }
    ensures low { next ≤ result }
    ensures high { result ≤ to }
    ensures none { NoneFrom utf16_starts bytes.now next result }
{
    let mut at = next;
    while to - at >= STEP && bytes.len() - at >= STEP + TwoPairsTest::REACH && is_bare(bytes, at) {
        at += STEP;
    }
    next_place(&TwoPairsTest, bytes, at, to)
}

// No run begins at one of the places of a step, since none has two pairs in a row at a place of its masks.
#[inline(always)]
fn is_bare(bytes: &[u8], at: usize) -> bool
    requires { at + STEP + 3 ≤ length bytes.now }
    ensures { IsTrue result → NoneFrom utf16_starts bytes.now at (at + STEP) }
{
    let first = TwoPairsTest.mask(bytes, at + AHEAD);
    let second = TwoPairsTest.mask(bytes, at + AHEAD + TOLD);
    let third = TwoPairsTest.mask(bytes, at + AHEAD + 2 * TOLD);
    let fourth = TwoPairsTest.mask(bytes, at + AHEAD + 3 * TOLD);
    (first == 0) & (second == 0) & (third == 0) & (fourth == 0)
}
