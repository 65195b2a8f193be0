// The letters of the Base64 alphabet as a class of bytes, and runs of them.
//
// Sixteen bytes are told at a time, by two looks into tables of sixteen entries: the columns of ASCII that
// hold letters fall into four kinds, a bit each, by a byte's high half, and its low half says in which of them
// a letter stands there.
ghost use Rattle.std.specs.Prelude.{◌≡◌, ◌≤◌, length};
ghost use Rattle.std.specs.List.{prefix_len};
ghost use Rattle.byte_kit.specs.Classes.{base64_class};

use byte_kit::is_base64;
use sbuf_nest::{ByteClass, run_len};
use std::simd::prelude::*;
use vector_search::outside;

// Letters, digits, `+` and `/`.
pub(crate) struct Letters;

impl ByteClass for Letters {
    ghost holds = { base64_class };

    #[inline(always)]
    fn has(byte: u8) -> bool {
        is_base64(byte)
    }

    #[inline(always)]
    fn strangers(bytes: u8x16) -> u64 {
        outside(COLUMNS, ROWS, bytes)
    }
}

// How many letters stand in front.
pub(crate) fn letters_len(bytes: &[u8]) -> usize
    ensures run { result ≡ prefix_len base64_class bytes.now }
    ensures within { result ≤ length bytes.now }
{
    run_len::<Letters>(bytes)
}

// The kind of a column: 1 has `+` and `/`, 2 the digits, 4 `A` to `O` or `a` to `o`, 8 the other letters.
static COLUMNS: [u8; 16] = [0, 0, 1, 2, 4, 8, 4, 8, 0, 0, 0, 0, 0, 0, 0, 0];

// In which kinds of columns a letter has this low half.
static ROWS: [u8; 16] = [10, 14, 14, 14, 14, 14, 14, 14, 14, 14, 12, 5, 4, 4, 4, 5];
