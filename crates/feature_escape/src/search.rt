// The search for the first byte that does not stand as it is, sixteen bytes at a time.
ghost use Rattle.std.specs.Prelude.{◌≡◌, not, slice_index, length, position};
ghost use Rattle.feature_escape.specs.Escape.{stands};
ghost use Rattle.vector_search.specs.Places.{IsNext};

use byte_kit::is_printable;
use std::simd::prelude::*;
use vector_search::{PlaceTest, next_place};

// The first printable byte, the blank, and how many there are from it on.
const FIRST_PRINTABLE: u8 = 0x20;

const PRINTABLE_COUNT: u8 = 95;

// The place's byte does not stand as it is.
struct EscapedTest;

impl PlaceTest for EscapedTest {
    ghost passes = { λ _ bytes place. not (stands (slice_index bytes place)) };

    ghost REACH = { 0 };

    const REACH: usize = 0;

    #[inline(always)]
    fn mask(&self, bytes: &[u8], at: usize) -> u64 {
        let byte = u8x16::from_slice(&bytes[at..]);
        let unprintable = (byte - u8x16::splat(FIRST_PRINTABLE)).simd_ge(u8x16::splat(
            PRINTABLE_COUNT,
        ));
        let backslash = byte.simd_eq(u8x16::splat(b'\\'));
        (unprintable | backslash).to_bitmask()
    }

    #[inline(always)]
    fn passes_at(&self, bytes: &[u8], place: usize) -> bool {
        !stands(bytes[place])
    }
}

// The index of the first byte that does not stand as it is.
pub(crate) fn first_escaped(bytes: &[u8]) -> Option<usize>
    ensures { result ≡ position (λ byte. not (stands byte)) bytes.now }
{
    let next = next_escaped(bytes);
    if next < bytes.len() { Some(next) } else { None }
}

// The same index, or the length where each byte stands. A byte in front that does not stand is answered
// ahead of any search, for bytes where most do not.
#[inline]
fn next_escaped(bytes: &[u8]) -> usize
    ensures { IsNext (λ place. not (stands (slice_index bytes.now place))) 0 (length bytes.now) result }
{
    if bytes.len() > 0 && !stands(bytes[0]) {
        return 0;
    }
    next_place(&EscapedTest, bytes, 0, bytes.len())
}

// Whether a byte stands as it is.
#[inline]
pub(crate) fn stands(byte: u8) -> bool
    ensures { result ≡ stands byte }
{
    is_printable(byte) && byte != b'\\'
}
