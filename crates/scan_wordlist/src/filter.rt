// The tests of places that a search for words goes by.
ghost use Rattle.std.specs.Prelude.{◌≡◌, ◌+◌, ◌≤◌, length, map, take, drop};
ghost use Rattle.std.specs.List.{prefix_len};
ghost use Rattle.byte_kit.specs.Classes.{word_class};
ghost use Rattle.vector_search.specs.declared.place_test.TheConstants.{LANES};
ghost use Rattle.vector_search.specs.Places.{IsNext};
ghost use Rattle.scan_wordlist.specs.Filter.{begins_row, is_stranger, behind_first};

use byte_kit::is_word;
use std::simd::prelude::*;
use vector_search::{LANES, PlaceTest, next_place};

// The first byte that may stand in a word.
const FIRST: u8 = 33;

// How far behind it the last one is.
const BYTES_MORE: u8 = 93;

// A word byte stands at the place, and so many more in a row behind it.
pub(crate) struct RowTest<const MORE: usize>;

impl<const MORE: usize> PlaceTest for RowTest<MORE> {
    ghost passes = { λ _. begins_row (MORE + 1) };

    ghost REACH = { MORE };

    const REACH: usize = MORE;

    #[inline(always)]
    fn mask(&self, bytes: &[u8], at: usize) -> u64 {
        let mut farthest = behind_first(bytes, at);
        for more in 0..MORE {
            farthest = farthest.simd_max(behind_first(bytes, at + 1 + more));
        }
        farthest.simd_le(u8x16::splat(BYTES_MORE)).to_bitmask()
    }

    #[inline(always)]
    fn passes_at(&self, bytes: &[u8], place: usize) -> bool {
        let (_, from) = bytes.split_at(place);
        if from.len() <= MORE {
            return false;
        }
        row_of(from.split_at(MORE).0) == MORE && is_word(from[MORE])
    }
}

// No word byte stands at the place.
pub(crate) struct StrangerTest;

impl PlaceTest for StrangerTest {
    ghost passes = { λ _. is_stranger };

    ghost REACH = { 0 };

    const REACH: usize = 0;

    #[inline(always)]
    fn mask(&self, bytes: &[u8], at: usize) -> u64 {
        behind_first(bytes, at)
            .simd_gt(u8x16::splat(BYTES_MORE))
            .to_bitmask()
    }

    #[inline(always)]
    #[tactic(auto, unfolding(crate::specs::Filter::is_stranger))]
    fn passes_at(&self, bytes: &[u8], place: usize) -> bool {
        !is_word(bytes[place])
    }
}

// The same as `next_place`. In text what is looked for mostly stands near, so one mask comes ahead of
// the steps of four.
#[inline(always)]
pub(crate) fn next_near<T: PlaceTest>(test: &T, bytes: &[u8], from: usize, to: usize) -> usize
    requires ordered { from ≤ to }
    requires within { to ≤ length bytes.now }
    ensures { IsNext (T.passes test.now bytes.now) from to result }
{
    if to - from < LANES || bytes.len() - from - LANES < T::REACH {
        return next_place(test, bytes, from, to);
    }
    let marks = test.mask(bytes, from);
    if marks != 0 {
        return from + marks.trailing_zeros() as usize;
    }
    next_place(test, bytes, from + LANES, to)
}

// How far each byte stands behind the first byte of a word.
#[inline(always)]
fn behind_first(bytes: &[u8], at: usize) -> u8x16
    requires { at + LANES ≤ length bytes.now }
    ensures { result ≡ map behind_first (take LANES (drop at bytes.now)) }
{
    u8x16::from_slice(&bytes[at..]) - u8x16::splat(FIRST)
}

// How many bytes of a word stand in front.
fn row_of(bytes: &[u8]) -> usize
    ensures run { result ≡ prefix_len word_class bytes.now }
    ensures within { result ≤ length bytes.now }
{
    bytes.iter().take_while(|byte| is_word(**byte)).count()
}
