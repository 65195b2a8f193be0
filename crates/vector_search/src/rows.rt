// The search for the next row: many places one behind the other none of which passes a test of strangers.
//
// A row from any of sixteen places on has all places of one mask, which begins at the last of them. Where
// that mask shows a stranger, all sixteen are passed over. Strangers stand dense in most bytes, so a step
// looks at two single places, and else at four such masks, and branches once, by a stride that no mask decides: a
// load that waits for the mask ahead of it is several times slower.
//
// What passes over most is tried first. In bytes that have few others than strangers two single places tell of a
// step. Where both are mixed, as in random bytes, a branch on single places is often mispredicted; there four masks
// that stand a row apart mostly show a stranger at the same bit, and else the first two of them nearly always.
ghost use Rattle.std.specs.Prelude.{◌≡◌, ◌+◌, ◌≤◌, length, IsTrue};
ghost use Rattle.vector_search.specs.Rows.{NoRowIn, IsNextRow};

use crate::{LANES, PlaceTest};

/// How many places a row has.
pub const ROW: usize = 2 * LANES;

// How many places a step passes over.
const STEP: usize = 4 * LANES;

// How far the first mask of a step stands behind the first place that is passed over.
const LAST: usize = LANES - 1;

// How many places a long step passes over: up to the last of its four masks, which stand a row apart.
const LONG_STEP: usize = 3 * ROW + LANES;

// How many places a short step passes over: up to the last of its two masks.
const SHORT_STEP: usize = ROW + LANES;

/// The first place from `from` up to `to` at which a row stands, or `to` where none does: the `ROW` places
/// from it on lie within the bytes, behind `to` too, and none of them passes the test. It asks for a test
/// that reads a place's own byte alone.
#[inline(always)]
pub fn next_row<T: PlaceTest>(strangers: &T, bytes: &[u8], from: usize, to: usize) -> usize
    requires ordered { from ≤ to }
    requires within { to ≤ length bytes.now }
    requires alone { T.REACH ≡ 0 }
    ensures { IsNextRow (T.passes strangers.now bytes.now) (length bytes.now) from to result }
{
    let length = bytes.len();
    let mut at = from;
    while at < to && length - at >= ROW {
        let late = strangers.mask(bytes, at + LANES);
        if late != 0 {
            let behind = at + LANES + 1 + late.trailing_zeros() as usize;
            at = past_broken(strangers, bytes, behind, to);
            continue;
        }
        let early = strangers.mask(bytes, at);
        if early == 0 {
            return at;
        }
        at += 1 + early.trailing_zeros() as usize;
    }
    to
}

// A place from `from` on ahead of which, from `from` on, no row stands, by single places. Each row from one of
// the places of a step on has the last place of its first half or of its second: both are strangers.
#[inline(always)]
fn past_sampled<T: PlaceTest>(strangers: &T, bytes: &[u8], from: usize, to: usize) -> usize
    requires within { from ≤ length bytes.now }
    requires alone { T.REACH ≡ 0 }
    ensures low { from ≤ result }
    ensures high { result ≤ length bytes.now }
    ensures none { NoRowIn (T.passes strangers.now bytes.now) (length bytes.now) from result }
{
    let length = bytes.len();
    let mut at = from;
    while at < to && length - at >= STEP && are_sampled(strangers, bytes, at) {
        at += STEP;
    }
    at
}

// Strangers stand at the last places of the two rows of a step.
#[inline(always)]
fn are_sampled<T: PlaceTest>(strangers: &T, bytes: &[u8], at: usize) -> bool
    requires within { at + STEP ≤ length bytes.now }
    ensures { IsTrue result → NoRowIn (T.passes strangers.now bytes.now) (length bytes.now) at (at + STEP) }
{
    strangers.passes_at(bytes, at + (ROW - 1)) & strangers.passes_at(bytes, at + (STEP - 1))
}

// A place from `from` on ahead of which, from `from` on, no row stands, by masks that share a bit.
#[inline(always)]
fn past_shared<T: PlaceTest>(strangers: &T, bytes: &[u8], from: usize, to: usize) -> usize
    requires within { from ≤ length bytes.now }
    requires alone { T.REACH ≡ 0 }
    ensures low { from ≤ result }
    ensures high { result ≤ length bytes.now }
    ensures none { NoRowIn (T.passes strangers.now bytes.now) (length bytes.now) from result }
{
    let length = bytes.len();
    let mut at = from;
    while at < to && length - at >= LONG_STEP + LANES {
        if are_shared(strangers, bytes, at) {
            at += LONG_STEP;
        } else if are_paired(strangers, bytes, at) {
            at += SHORT_STEP;
        } else {
            return at;
        }
    }
    at
}

// No row stands at one of the places of a long step: strangers stand a row apart, each at the same bit of a mask.
#[inline(always)]
fn are_shared<T: PlaceTest>(strangers: &T, bytes: &[u8], at: usize) -> bool
    requires within { at + LONG_STEP + LANES ≤ length bytes.now }
    requires alone { T.REACH ≡ 0 }
    ensures { IsTrue result → NoRowIn (T.passes strangers.now bytes.now) (length bytes.now) at (at + LONG_STEP) }
{
    let first = strangers.mask(bytes, at + LANES);
    let second = strangers.mask(bytes, at + LANES + ROW);
    let third = strangers.mask(bytes, at + LANES + 2 * ROW);
    let fourth = strangers.mask(bytes, at + LANES + 3 * ROW);
    (first & second) & (third & fourth) != 0
}

// No row stands at one of the places of a short step.
#[inline(always)]
fn are_paired<T: PlaceTest>(strangers: &T, bytes: &[u8], at: usize) -> bool
    requires within { at + SHORT_STEP + LANES ≤ length bytes.now }
    requires alone { T.REACH ≡ 0 }
    ensures { IsTrue result → NoRowIn (T.passes strangers.now bytes.now) (length bytes.now) at (at + SHORT_STEP) }
{
    let first = strangers.mask(bytes, at + LANES);
    let second = strangers.mask(bytes, at + LANES + ROW);
    first & second != 0
}

// A place from `from` on ahead of which, from `from` on, no row stands. It goes no further than a long step
// behind `to`.
#[inline(always)]
fn past_broken<T: PlaceTest>(strangers: &T, bytes: &[u8], from: usize, to: usize) -> usize
    requires within { from ≤ length bytes.now }
    requires alone { T.REACH ≡ 0 }
    ensures low { from ≤ result }
    ensures high { result ≤ length bytes.now }
    ensures none { NoRowIn (T.passes strangers.now bytes.now) (length bytes.now) from result }
{
    let length = bytes.len();
    let sampled = past_sampled(strangers, bytes, from, to);
    let mut wide = past_shared(strangers, bytes, sampled, to);
    while wide < to && length - wide >= STEP + LAST && are_broken(strangers, bytes, wide) {
        wide += STEP;
    }
    let mut at = wide;
    while at < to && length - at >= LANES + LAST && strangers.mask(bytes, at + LAST) != 0 {
        at += LANES;
    }
    at
}

// No row stands at one of the places of a step. Where single places tell, no mask is made.
#[inline(always)]
fn are_broken<T: PlaceTest>(strangers: &T, bytes: &[u8], at: usize) -> bool
    requires within { at + STEP + LAST ≤ length bytes.now }
    requires alone { T.REACH ≡ 0 }
    ensures { IsTrue result → NoRowIn (T.passes strangers.now bytes.now) (length bytes.now) at (at + STEP) }
{
    if are_sampled(strangers, bytes, at) {
        return true;
    }
    let first = strangers.mask(bytes, at + LAST);
    let second = strangers.mask(bytes, at + LAST + LANES);
    let third = strangers.mask(bytes, at + LAST + 2 * LANES);
    let fourth = strangers.mask(bytes, at + LAST + 3 * LANES);
    (first != 0) & (second != 0) & (third != 0) & (fourth != 0)
}
