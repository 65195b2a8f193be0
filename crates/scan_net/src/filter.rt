// The test of places that a search for packets goes by.
ghost use Rattle.std.specs.Prelude.{◌≡◌};
ghost use Rattle.scan_net.specs.Filter.{begins_version_4, may_begin_ipv4};

use crate::ipv4::is_known;
use std::simd::prelude::*;
use vector_search::PlaceTest;

// How far behind the first byte of a header its protocol stands.
const PROTOCOL_AT: usize = 9;

// The first byte of the shortest header: version 4, and 5 words.
const FIRST_LEAST: u8 = 0x45;

// How many words more the longest header has.
const WORDS_MORE: u8 = 10;

// An IPv4 header may begin at the place, by the first byte and the protocol.
pub(crate) struct HeaderTest;

impl PlaceTest for HeaderTest {
    ghost passes = { λ _. may_begin_ipv4 };

    ghost REACH = { 9 };

    const REACH: usize = PROTOCOL_AT;

    #[inline(always)]
    fn mask(&self, bytes: &[u8], at: usize) -> u64 {
        let first = u8x16::from_slice(&bytes[at..]);
        let protocol = u8x16::from_slice(&bytes[at + PROTOCOL_AT..]);
        let begins = (first - u8x16::splat(FIRST_LEAST)).simd_le(u8x16::splat(WORDS_MORE));
        let known = protocol.simd_eq(u8x16::splat(1))
            | protocol.simd_eq(u8x16::splat(6))
            | protocol.simd_eq(u8x16::splat(17));
        (begins & known).to_bitmask()
    }

    #[inline(always)]
    #[tactic(auto, unfolding(crate::specs::Filter::may_begin_ipv4))]
    fn passes_at(&self, bytes: &[u8], place: usize) -> bool {
        begins_version_4(bytes[place])
            && bytes.len() - place > PROTOCOL_AT
            && is_known(bytes[place + PROTOCOL_AT])
    }
}

// Version 4, and 5 to 15 words.
#[inline(always)]
fn begins_version_4(first: u8) -> bool
    ensures { result ≡ begins_version_4 first }
{
    FIRST_LEAST <= first && first - FIRST_LEAST <= WORDS_MORE
}
