// The run of pairs at a place.
ghost use Rattle.std.specs.Prelude.{◌≡◌, ◌==◌, min, not};
ghost use Rattle.sbuf_nest.specs.Around.{seen};
ghost use Rattle.decode_views.specs.declared.TheConstants.{PAIRS_MOST};
ghost use Rattle.decode_views.specs.Utf16.{is_pair, pairs_in, last_pairs, utf16_run};

use crate::{PAIRS_LEAST, PAIRS_MOST};
use byte_kit::is_printable;
use sbuf_nest::{Extent, Look};

/// The run of UTF-16LE pairs at the place (`utf16_run` of `specs/Utf16.antt`): how many bytes it covers,
/// and how many pairs of a printable byte and a zero byte, from `PAIRS_LEAST` to `PAIRS_MOST`. None exactly
/// where the two bytes right ahead of the place are a pair, or fewer pairs stand from it on.
#[tactic(auto, unfolding(crate::specs::Utf16::utf16_run, crate::specs::Utf16::utf16_extent))]
pub fn utf16_run(look: &Look) -> Option<Extent>
    ensures { result ≡ utf16_run (seen look.now) }
{
    if ends_in_pair(look.before) {
        return None;
    }
    let pairs = pairs_in(look.after);
    if pairs < PAIRS_LEAST {
        return None;
    }
    Some(Extent {
        bytes: 2 * pairs as u32,
        units: pairs as u32,
    })
}

// How many pairs stand in front, of which at most `PAIRS_MOST` are counted.
pub(crate) fn pairs_in(bytes: &[u8]) -> usize
    ensures { result ≡ min (pairs_in bytes.now) PAIRS_MOST }
{
    let most = PAIRS_MOST.min(bytes.len() / 2);
    for pair in 0..most {
        if !is_pair(bytes[2 * pair], bytes[2 * pair + 1]) {
            return pair;
        }
    }
    most
}

// The last two bytes, where there are two, are a pair.
pub(crate) fn ends_in_pair(bytes: &[u8]) -> bool
    ensures { result ≡ not (last_pairs bytes.now == 0) }
{
    match bytes {
        [.., byte, zero_byte] => is_pair(*byte, *zero_byte),
        _ => false,
    }
}

// A printable byte and a zero byte.
#[inline(always)]
pub(crate) fn is_pair(byte: u8, zero_byte: u8) -> bool
    ensures { result ≡ is_pair byte zero_byte }
{
    zero_byte == 0 && is_printable(byte)
}
