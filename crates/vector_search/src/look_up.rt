// A vector looked up in tables of sixteen entries.
ghost use Rattle.std.specs.Prelude.{◌≡◌, ◌/◌, ◌%◌, map, slice_index};
ghost use Rattle.vector_search.specs.Classes.{is_outside};
ghost use Rattle.vector_search.specs.Places.{bits_of};

use crate::LANES;
use std::simd::prelude::*;

/// Each byte's entry in the table, by its high half (its high four bits).
#[inline(always)]
pub fn by_high_half(table: [u8; LANES], bytes: u8x16) -> u8x16
    ensures { result ≡ map (λ byte. slice_index table (byte / 16)) bytes }
{
    u8x16::from_array(table).swizzle_dyn(bytes >> u8x16::splat(4))
}

/// Each byte's entry in the table, by its low half (its low four bits).
#[inline(always)]
pub fn by_low_half(table: [u8; LANES], bytes: u8x16) -> u8x16
    ensures { result ≡ map (λ byte. slice_index table (byte % 16)) bytes }
{
    u8x16::from_array(table).swizzle_dyn(bytes & u8x16::splat(15))
}

/// Bit k says whether byte k is outside of the class that two tables name: those bytes whose high half has,
/// in the table of the columns of ASCII, a bit in common with what the low half has in that of its rows.
#[inline(always)]
pub fn outside(columns: [u8; LANES], rows: [u8; LANES], bytes: u8x16) -> u64
    ensures { result ≡ bits_of (is_outside columns rows) bytes }
{
    let common = by_high_half(columns, bytes) & by_low_half(rows, bytes);
    common.simd_eq(u8x16::splat(0)).to_bitmask()
}
