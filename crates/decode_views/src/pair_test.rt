// The test of places that the search for runs of pairs goes by.
ghost use Rattle.std.specs.Prelude.{◌≡◌, ◌+◌, ◌≤◌, length, slice_index};
ghost use Rattle.decode_views.specs.TwoPairs.{are_two_pairs};

use crate::run::is_pair;
use std::simd::prelude::*;
use vector_search::PlaceTest;

// The first printable byte, and how far behind it the last one is.
const PRINTABLE_LEAST: u8 = b' ';

const PRINTABLE_MORE: u8 = b'~' - b' ';

// Two pairs stand in a row at the place. One alone is common: a text's last letter and the zero byte that ends it.
pub(crate) struct TwoPairsTest;

impl PlaceTest for TwoPairsTest {
    ghost passes = { λ _. are_two_pairs };

    ghost REACH = { 3 };

    const REACH: usize = 3;

    #[inline(always)]
    fn mask(&self, bytes: &[u8], at: usize) -> u64 {
        let first = u8x16::from_slice(&bytes[at..]);
        let first_zero = u8x16::from_slice(&bytes[at + 1..]);
        let second = u8x16::from_slice(&bytes[at + 2..]);
        let second_zero = u8x16::from_slice(&bytes[at + 3..]);
        let zeros = first_zero.simd_eq(u8x16::splat(0)) & second_zero.simd_eq(u8x16::splat(0));
        let least = u8x16::splat(PRINTABLE_LEAST);
        let more = u8x16::splat(PRINTABLE_MORE);
        let printable = (first - least).simd_le(more) & (second - least).simd_le(more);
        (zeros & printable).to_bitmask()
    }

    #[inline(always)]
    #[tactic(auto, unfolding(crate::specs::TwoPairs::are_two_pairs))]
    fn passes_at(&self, bytes: &[u8], place: usize) -> bool {
        is_pair(bytes[place], byte_behind(bytes, place, 1))
            && is_pair(byte_behind(bytes, place, 2), byte_behind(bytes, place, 3))
    }
}

// The byte so far behind a place, or 0 behind the end.
#[inline(always)]
fn byte_behind(bytes: &[u8], place: usize, far: usize) -> u8
    requires { place ≤ length bytes.now }
    ensures { result ≡ slice_index bytes.now (place + far) }
{
    if bytes.len() - place <= far {
        return 0;
    }
    bytes[place + far]
}
