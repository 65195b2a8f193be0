ghost use Rattle.std.specs.Prelude.{◌≡◌, ◌==◌, ◌&&◌, not, ◌+◌, ◌≤◌, length, slice_index};
ghost use Rattle.vector_search.specs.Places.{mask_of};

use crate::{LANES, PlaceTest, ROW, by_high_half, next_place, next_row, outside};
use std::alloc::{AllocError, Global};
use std::simd::prelude::*;
use std::test::Fail;

// An `a` with a `b` two places behind it.
struct Pair;

impl PlaceTest for Pair {
    ghost passes = { λ _ bytes place. (slice_index bytes place == 97) && (slice_index bytes (place + 2) == 98) };

    ghost REACH = { 2 };

    const REACH: usize = 2;

    fn mask(&self, bytes: &[u8], at: usize) -> u64 {
        let first = u8x16::from_slice(&bytes[at..]);
        let third = u8x16::from_slice(&bytes[at + 2..]);
        (first.simd_eq(u8x16::splat(b'a')) & third.simd_eq(u8x16::splat(b'b'))).to_bitmask()
    }

    fn passes_at(&self, bytes: &[u8], place: usize) -> bool {
        bytes[place] == b'a' && bytes.len() - place > 2 && bytes[place + 2] == b'b'
    }
}

// The first place from `from` up to `to` of `length` dots, with a pair at each place of `pairs`, that
// has a pair.
fn found(
    alloc: Global,
    length: usize,
    pairs: &[usize],
    from: usize,
    to: usize,
) -> Result<Option<usize>, AllocError> {
    let mut bytes = Vec::new(alloc);
    bytes.resize(length, b'.')?;
    for place in pairs {
        if *place < length {
            bytes[*place] = b'a';
        }
        if *place < length && length - *place > 2 {
            bytes[*place + 2] = b'b';
        }
    }
    if from > to || to > length {
        return Ok(None);
    }
    Ok(Some(next_place(&Pair, bytes.as_slice(), from, to)))
}

// How many dots, where the pairs stand, the places searched, and the place found.
type Row = (usize, &'static [usize], usize, usize, usize);

const ROWS: &[Row] = &[
    (200, &[70, 130], 0, 200, 70),
    (200, &[70, 130], 70, 200, 70),
    (200, &[70, 130], 71, 200, 130),
    (200, &[70, 130], 131, 200, 200),
    (200, &[70, 130], 0, 70, 70),
    (200, &[70, 130], 0, 69, 69),
    (200, &[70, 130], 0, 0, 0),
    (200, &[70, 130], 71, 130, 130),
    (200, &[70, 130], 71, 131, 130),
    (64, &[61], 0, 64, 61),
    (64, &[62], 0, 64, 64),
    (66, &[63], 0, 64, 63),
    (65, &[63], 0, 64, 64),
    (82, &[63], 0, 82, 63),
    (82, &[64], 0, 82, 64),
    (82, &[79], 0, 82, 79),
    (3, &[0], 0, 3, 0),
    (2, &[0], 0, 2, 2),
    (0, &[], 0, 0, 0),
];

#[test]
fn the_next_place_is_found_wherever_it_stands(rt: HostRuntime) -> Result<(), Fail> {
    for (length, pairs, from, to, want) in ROWS {
        let next = found(rt.alloc(), *length, pairs, *from, *to)?;
        assert!(rt; next == Some(*want), "in {length} from {from} to {to}");
    }
    Ok(())
}

// A pair behind `ahead` dots is found from `offset` on, up to its place, up to the one behind it and up to the
// end, which is so many bytes behind it.
fn is_found(alloc: Global, offset: usize, ahead: usize, behind: usize) -> Result<bool, AllocError> {
    let place = offset.saturating_add(ahead);
    let length = place.saturating_add(behind);
    for to in [place, place.saturating_add(1), length] {
        if found(alloc, length, &[place], offset, to)? != Some(place) {
            return Ok(false);
        }
    }
    Ok(true)
}

// How many dots stand ahead of a pair, and how many bytes from it on.
const AROUND: &[(usize, usize)] = &[
    (0, 3),
    (0, 40),
    (15, 3),
    (16, 3),
    (63, 3),
    (64, 3),
    (64, 90),
    (130, 18),
];

#[test]
fn no_offset_hides_a_place(rt: HostRuntime) -> Result<(), Fail> {
    for offset in 0..64 {
        for (ahead, behind) in AROUND {
            let is_so = is_found(rt.alloc(), offset, *ahead, *behind)?;
            assert!(rt; is_so, "at {offset} with {ahead} ahead and {behind} behind");
        }
    }
    Ok(())
}

#[test]
fn a_byte_is_looked_up_by_its_high_half(rt: HostRuntime) {
    let table = [
        10, 11, 12, 13, 14, 15, 16, 17, 18, 19, 20, 21, 22, 23, 24, 25,
    ];
    let bytes = [
        0x00, 0x0f, 0x10, 0x1f, 0x2a, 0x3b, 0x4c, 0x5d, 0x6e, 0x7f, 0x80, 0x91, 0xa2, 0xb3, 0xe4,
        0xff,
    ];
    let want = [
        10, 10, 11, 11, 12, 13, 14, 15, 16, 17, 18, 19, 20, 21, 24, 25,
    ];
    let found = by_high_half(table, u8x16::from_array(bytes));
    assert!(rt; found.to_array() == want);
}

// Capital letters by tables: columns 4 and 5 have them, of which the first has them from 1 on, and the other up to
// 10.
const CAPITAL_COLUMNS: [u8; 16] = [0, 0, 0, 0, 1, 2, 0, 0, 0, 0, 0, 0, 0, 0, 0, 0];

const CAPITAL_ROWS: [u8; 16] = [2, 3, 3, 3, 3, 3, 3, 3, 3, 3, 3, 1, 1, 1, 1, 1];

#[test]
fn bytes_outside_of_a_class_are_told_by_tables(rt: HostRuntime) {
    let bytes = *b"AZ@[az09OP_~\x00\x80\xc1Q";
    let bits = outside(CAPITAL_COLUMNS, CAPITAL_ROWS, u8x16::from_array(bytes));
    assert_eq!(rt; bits, 0b0111_1100_1111_1100);
}

// A byte other than a star.
struct Stranger;

impl PlaceTest for Stranger {
    ghost passes = { λ _ bytes place. not (slice_index bytes place == 42) };

    ghost REACH = { 0 };

    const REACH: usize = 0;

    fn mask(&self, bytes: &[u8], at: usize) -> u64 {
        let seen = u8x16::from_slice(&bytes[at..]);
        seen.simd_ne(u8x16::splat(b'*')).to_bitmask()
    }

    fn passes_at(&self, bytes: &[u8], place: usize) -> bool {
        bytes[place] != b'*'
    }
}

// A row stands at the place, as a plain look at each of its bytes tells.
fn is_row(bytes: &[u8], place: usize) -> bool {
    let (_, rest) = bytes.split_at(place.min(bytes.len()));
    rest.len() >= ROW && rest[..ROW].iter().all(|byte| *byte == b'*')
}

// The first row is found from each of some places on and up to each of them, as a plain look at each place finds it.
fn rows_are_found(bytes: &[u8], from: usize) -> bool {
    let mut wanted = bytes.len();
    for place in (from..bytes.len()).rev() {
        if is_row(bytes, place) {
            wanted = place;
        }
    }
    for to in from..bytes.len() {
        if next_row(&Stranger, bytes, from, to) != wanted.min(to) {
            return false;
        }
    }
    true
}

// So many bytes: stars but for dots at these places.
fn dotted(alloc: Global, length: usize, dots: &[usize]) -> Result<Vec<u8>, AllocError> {
    let mut bytes = Vec::new(alloc);
    bytes.resize(length, b'*')?;
    for dot in dots {
        if *dot < length {
            bytes[*dot] = b'.';
        }
    }
    Ok(bytes)
}

// How many bytes, and where the dots among the stars stand.
const DOTTED: &[(usize, &[usize])] = &[
    (31, &[]),
    (32, &[]),
    (80, &[10, 41, 47]),
    (180, &[15, 31, 47, 63, 79, 95, 111, 127, 143]),
    (180, &[14, 46, 78, 110, 142]),
    (180, &[16, 40, 71, 103, 135, 167]),
    (180, &[30, 61, 92, 93, 94, 120, 150]),
    (180, &[0, 31, 62, 63, 64, 65, 80, 81, 111, 112, 140]),
    (180, &[18, 35, 67, 110]),
    (300, &[20, 52, 84, 116, 148, 180, 212, 250]),
    (300, &[17, 49, 81, 113, 144, 176, 208, 240]),
];

#[test]
fn the_next_row_is_the_one_that_a_plain_look_finds(rt: HostRuntime) -> Result<(), Fail> {
    for &(length, dots) in DOTTED {
        let bytes = dotted(rt.alloc(), length, dots)?;
        for from in 0..length {
            let are_found = rows_are_found(bytes.as_slice(), from);
            assert!(rt; are_found, "in {length} from {from}");
        }
    }
    Ok(())
}
