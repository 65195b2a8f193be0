// The search for the next place that passes a test.
//
// Where little passes, a step looks at four masks and branches once: memory is the limit, at about 5
// GB/s of one processor, and in cache it is twice as fast. Behind these steps come masks one by one; the
// places that are too few for a mask have one that begins ahead of them, and so do short bytes behind
// their first sixteen. Place by place go those that are too near to the end of the bytes. The worst bytes
// are those where each place passes: a call for each of them.
ghost use Rattle.std.specs.Prelude.{◌≡◌, ◌+◌, ◌≤◌, length, IsTrue};
ghost use Rattle.vector_search.specs.Places.{NoneIn, IsNext};

use crate::{LANES, PlaceTest};

// How many places the four masks of a step have.
const STEP: usize = 4 * LANES;

/// The first place from `from` up to `to` that passes the test, or `to` where none does. The bytes may
/// go on behind `to`, and are read: whether a place passes is told by all of them.
#[inline(always)]
pub fn next_place<T: PlaceTest>(test: &T, bytes: &[u8], from: usize, to: usize) -> usize
    requires ordered { from ≤ to }
    requires within { to ≤ length bytes.now }
    ensures { IsNext (T.passes test.now bytes.now) from to result }
{
    let length = bytes.len();
    let mut wide = from;
    while to - wide >= STEP && length - wide - STEP >= T::REACH && is_quiet(test, bytes, wide) {
        wide += STEP;
    }
    let mut at = wide;
    while to - at >= LANES && length - at - LANES >= T::REACH {
        let marks = test.mask(bytes, at);
        if marks != 0 {
            return at + marks.trailing_zeros() as usize;
        }
        at += LANES;
    }
    for place in past_last_mask(test, bytes, at, to)..to {
        if test.passes_at(bytes, place) {
            return place;
        }
    }
    to
}

// None of the places of a step passes.
#[inline(always)]
fn is_quiet<T: PlaceTest>(test: &T, bytes: &[u8], at: usize) -> bool
    requires { at + STEP + T.REACH ≤ length bytes.now }
    ensures { IsTrue result → NoneIn (T.passes test.now bytes.now) at (at + STEP) }
{
    let low = test.mask(bytes, at) | test.mask(bytes, at + LANES);
    let high = test.mask(bytes, at + 2 * LANES) | test.mask(bytes, at + 3 * LANES);
    low | high == 0
}

// A place from `at` up to `to` ahead of which, from `at` on, none passes, by the last mask that the bytes
// have room for. It may begin ahead of `at`.
#[inline(always)]
fn past_last_mask<T: PlaceTest>(test: &T, bytes: &[u8], at: usize, to: usize) -> usize
    requires ordered { at ≤ to }
    requires within { to ≤ length bytes.now }
    ensures low { at ≤ result }
    ensures high { result ≤ to }
    ensures none { NoneIn (T.passes test.now bytes.now) at result }
{
    let length = bytes.len();
    if at == to || length < LANES || length - LANES < T::REACH {
        return at;
    }
    let first = at.min(length - LANES - T::REACH);
    if at - first >= LANES {
        return at;
    }
    let end = (first + LANES).min(to);
    let marks = test.mask(bytes, first) >> (at - first);
    if marks == 0 {
        return end;
    }
    (at + marks.trailing_zeros() as usize).min(end)
}
