// The run of hexadecimal digits at a place.
ghost use Rattle.std.specs.Prelude.{◌≡◌};
ghost use Rattle.byte_kit.specs.Classes.{hex_class};
ghost use Rattle.sbuf_nest.specs.Around.{seen};
ghost use Rattle.decode_hex.specs.Hex.{hex_run};

use crate::{DIGITS_LEAST, DIGITS_MOST};
use byte_kit::is_hex;
use sbuf_nest::{ByteClass, Extent, Look, begins_run, run_len};
use std::simd::prelude::*;
use vector_search::outside;

// The hexadecimal digits of either case.
pub(crate) struct HexDigits;

impl ByteClass for HexDigits {
    ghost holds = { hex_class };

    #[inline(always)]
    fn has(byte: u8) -> bool {
        is_hex(byte)
    }

    #[inline(always)]
    fn strangers(bytes: u8x16) -> u64 {
        outside(COLUMNS, ROWS, bytes)
    }
}

// The kind of a column of ASCII: 1 has the digits `0` to `9`, 2 `A` to `F` or `a` to `f`.
static COLUMNS: [u8; 16] = [0, 0, 0, 1, 2, 0, 2, 0, 0, 0, 0, 0, 0, 0, 0, 0];

// In which kinds of columns a digit has this low half.
static ROWS: [u8; 16] = [1, 3, 3, 3, 3, 3, 3, 1, 1, 1, 0, 0, 0, 0, 0, 0];

/// The run of hexadecimal digits at the place (`hex_run` of `specs/Hex.antt`): how many bytes it covers,
/// each of which is a digit, an even number from `DIGITS_LEAST` to `DIGITS_MOST`. None exactly where a
/// digit stands right ahead of the place, or the run from it on is shorter.
#[tactic(auto, unfolding(crate::specs::Hex::hex_run, crate::specs::Hex::hex_extent))]
pub fn hex_run(look: &Look) -> Option<Extent>
    ensures { result ≡ hex_run (seen look.now) }
{
    if !begins_run::<HexDigits>(look) {
        return None;
    }
    let near = DIGITS_MOST.min(look.after.len());
    let digits = run_len::<HexDigits>(look.after.split_at(near).0);
    if digits < DIGITS_LEAST {
        return None;
    }
    let bytes = (digits / 2 * 2) as u32;
    Some(Extent {
        bytes,
        units: bytes,
    })
}
