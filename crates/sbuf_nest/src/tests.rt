ghost use Rattle.std.specs.Prelude.{◌≡◌, ◌==◌, [], ◌++◌, false, Some, slice_get, if◌then◌else◌};
ghost use Rattle.std.specs.Option.{option_map_or};
ghost use Rattle.forensic_path.specs.declared.feature.Kind.TheVariants.{Find};
ghost use Rattle.sbuf_nest.specs.Marks.{marked};

use crate::{
    ByteClass, Extent, Found, LOOK_AFTER, Look, Mark, Places, Sbuf, Search, Start, Starts,
    begins_run, find_marks, next_row, past_run, run_len,
};
use byte_kit::NoMemory;
use forensic_path::{Decoder, Kind};
use std::alloc::{AllocError, Global};
use std::simd::prelude::*;
use std::test::Fail;

// The bytes on either side of place `i` are these.
fn sees(sb: &Sbuf, i: usize, before: &[u8], after: &[u8]) -> bool {
    if i >= sb.len() {
        return false;
    }
    let look = sb.look(i);
    look.before == before && look.after == after
}

const LOOKS: &[(usize, &str, &str)] = &[
    (0, "", "0123456789"),
    (4, "0123", "456789"),
    (9, "012345678", "9"),
];

#[test]
fn a_look_is_the_bytes_on_either_side(rt: HostRuntime) {
    let sb = Sbuf::of(b"0123456789", 4, 8, 100);
    for (i, before, after) in LOOKS {
        assert!(rt;
            sees(&sb, *i, before.as_bytes(), after.as_bytes()),
            "at {i}"
        );
    }
}

// Bytes of which a look sees neither all ahead nor all behind: `ab`, dots, and `z`.
fn long(alloc: Global) -> Result<Vec<u8>, NoMemory> {
    let mut bytes = Vec::from_slice(alloc, b"ab")?;
    bytes.resize(LOOK_AFTER + 129, b'.')?;
    bytes.push(b'z')?;
    Ok(bytes)
}

// So many bytes stand ahead of place `i`, of which this is the first.
fn sees_ahead(sb: &Sbuf, i: usize, count: usize, first: u8) -> bool {
    if i >= sb.len() {
        return false;
    }
    let before = sb.look(i).before;
    before.len() == count && before.first() == Some(&first)
}

#[test]
fn a_look_has_at_most_128_bytes_ahead(rt: HostRuntime) -> Result<(), Fail> {
    let bytes = long(rt.alloc())?;
    let sb = Sbuf::child(bytes.as_slice());
    for (i, count, first) in [(127, 127, b'a'), (128, 128, b'a'), (129, 128, b'b')] {
        assert!(rt; sees_ahead(&sb, i, count, first), "at {i}");
    }
    Ok(())
}

// So many bytes stand from place `i` on, of which this is the last.
fn sees_behind(sb: &Sbuf, i: usize, count: usize, last: u8) -> bool {
    if i >= sb.len() {
        return false;
    }
    let after = sb.look(i).after;
    after.len() == count && after.last() == Some(&last)
}

#[test]
fn a_look_has_at_most_131072_bytes_from_its_place_on(rt: HostRuntime) -> Result<(), Fail> {
    let bytes = long(rt.alloc())?;
    let sb = Sbuf::child(bytes.as_slice());
    for (i, count, last) in [
        (129, 131072, b'.'),
        (130, 131072, b'z'),
        (131, 131071, b'z'),
    ] {
        assert!(rt; sees_behind(&sb, i, count, last), "at {i}");
    }
    Ok(())
}

// The buffer has so many bytes, and owns these from `from` up to `to`.
fn owns(sb: &Sbuf, len: usize, from: usize, to: usize, own: &[u8]) -> bool {
    sb.len() == len && sb.own_from() == from && sb.own_to() == to && sb.own() == own
}

// The bytes from `from` up to `to` are these.
fn has_part(sb: &Sbuf, from: usize, to: usize, bytes: &[u8]) -> bool {
    from <= to && to <= sb.len() && sb.part(from, to) == bytes
}

// Place `i` is this place of the image.
fn stands_at(sb: &Sbuf, i: usize, place: u64) -> bool {
    i <= sb.len() && sb.place(i) == place
}

#[test]
fn a_buffer_knows_its_own_places_and_where_they_stand(rt: HostRuntime) {
    let sb = Sbuf::of(b"0123456789", 4, 8, 100);
    assert!(rt; owns(&sb, 10, 4, 8, b"4567"));
    assert!(rt; has_part(&sb, 1, 4, b"123") && has_part(&sb, 10, 10, b""));
    assert!(rt; stands_at(&sb, 0, 100) && stands_at(&sb, 9, 109) && stands_at(&sb, 10, 110));
}

#[test]
fn a_value_owns_all_its_places(rt: HostRuntime) {
    let value = Sbuf::child(b"abc");
    assert!(rt; owns(&value, 3, 0, 3, b"abc"));
    assert!(rt; stands_at(&value, 2, 2));
}

const FIRST: Mark = Mark {
    at: 9,
    kind: Kind::Domain,
    which: 0,
    extent: 3,
};

const SECOND: Mark = Mark {
    at: 2,
    kind: Kind::Find,
    which: 65535,
    extent: 256,
};

fn add_both(found: &mut Found) -> Result<(), NoMemory> {
    found.add(FIRST)?;
    found.add(SECOND)
}

#[test]
fn marks_stay_in_the_order_in_which_they_were_added(rt: HostRuntime) -> Result<(), Fail> {
    let mut found = Found::make(rt.alloc());
    assert!(rt; found.marks().is_empty());
    add_both(&mut found)?;
    assert!(rt; found.marks() == [FIRST, SECOND].as_slice());
    Ok(())
}

#[test]
fn marks_that_are_cleared_are_gone(rt: HostRuntime) -> Result<(), Fail> {
    let mut found = Found::make(rt.alloc());
    add_both(&mut found)?;
    found.clear();
    assert!(rt; found.marks().is_empty());
    found.add(SECOND)?;
    assert!(rt; found.marks() == [SECOND].as_slice());
    Ok(())
}

// A search for a byte, with two marks where it stands, that counts the places that it judged.
#[derive(Drop)]
struct ByteSearch {
    byte: u8,
    judged: u64,
}

impl Search for ByteSearch {
    type Item = Mark;

    ghost judge = { λ s look place. if option_map_or (λ first. first == s.byte) (slice_get look.after 0) false then marked Find 0 place (Some 1) ++ marked Find 1 place (Some 1) else [] };

    fn next_places(&mut self, sb: &Sbuf, next: usize) -> Option<Places> {
        for place in next..sb.own_to() {
            if stands_in(self.byte, &sb.look(place)) {
                return Some(Places {
                    from: place,
                    to: place + 1,
                });
            }
        }
        None
    }

    fn marks_into(&mut self, look: &Look, place: usize, found: &mut Found) -> Result<(), NoMemory> {
        self.judged = self.judged.wrapping_add(1);
        if !stands_in(self.byte, look) {
            return Ok(());
        }
        found.add_extent(place, Kind::Find, 0, Some(1))?;
        found.add_extent(place, Kind::Find, 1, Some(1))
    }
}

fn stands_in(byte: u8, look: &Look) -> bool
    ensures { result ≡ option_map_or (λ first. first == byte) (slice_get look.now.after.now 0) false }
{
    match look.after.first() {
        Some(first) => *first == byte,
        None => false,
    }
}

fn find(at: usize, which: u16) -> Mark {
    Mark {
        at,
        kind: Kind::Find,
        which,
        extent: 1,
    }
}

// A byte, the owned places, how many places are judged, and the marks: their places and numbers.
type Row = (u8, usize, usize, u64, &'static [(usize, u16)]);

const SEARCHES: &[Row] = &[
    (b'a', 0, 6, 2, &[(0, 0), (0, 1), (5, 0), (5, 1)]),
    (b'b', 0, 6, 2, &[(2, 0), (2, 1), (3, 0), (3, 1)]),
    (b'b', 3, 6, 1, &[(3, 0), (3, 1)]),
    (b'a', 1, 5, 0, &[]),
    (b'a', 0, 0, 0, &[]),
];

// The marks stand at these places and have these numbers, and there are no others.
fn are(marks: &[Mark], want: &[(usize, u16)]) -> bool {
    if marks.len() != want.len() {
        return false;
    }
    for i in 0..marks.len() {
        let (at, which) = want[i];
        if marks[i] != find(at, which) {
            return false;
        }
    }
    true
}

// A search of `a.bb.a` for the byte finds the row's marks.
fn finds(alloc: Global, row: &Row) -> Result<bool, NoMemory> {
    let (byte, from, to, judged, want) = *row;
    if from > to || to > 6 {
        return Ok(false);
    }
    let mut search = ByteSearch { byte, judged: 0 };
    let mut found = Found::make(alloc);
    find_marks(&Sbuf::of(b"a.bb.a", from, to, 0), &mut search, &mut found)?;
    Ok(search.judged == judged && are(found.marks(), want))
}

#[test]
fn a_search_marks_the_owned_places_and_judges_few(rt: HostRuntime) -> Result<(), Fail> {
    for row in SEARCHES {
        assert!(rt; finds(rt.alloc(), row)?, "at {} to {}", row.1, row.2);
    }
    Ok(())
}

const TEXT: Start = Start {
    at: 7,
    by: Decoder::Base64,
    extent: Extent {
        bytes: 65,
        units: 64,
    },
};

const RUN: Start = Start {
    at: 2,
    by: Decoder::Utf16,
    extent: Extent {
        bytes: 16,
        units: 8,
    },
};

// Appends both texts, and nothing for the place between them where none begins.
fn add_texts(starts: &mut Starts) -> Result<(), NoMemory> {
    starts.add_text(7, Decoder::Base64, Some(TEXT.extent))?;
    starts.add_text(3, Decoder::Hex, None)?;
    starts.add_text(2, Decoder::Utf16, Some(RUN.extent))
}

#[test]
fn a_start_is_added_where_a_text_begins(rt: HostRuntime) -> Result<(), Fail> {
    let mut starts = Starts::make(rt.alloc());
    add_texts(&mut starts)?;
    assert!(rt; starts.items() == [TEXT, RUN].as_slice());
    starts.clear();
    assert!(rt; starts.items().is_empty());
    Ok(())
}

// The class of one byte.
struct Star;

impl ByteClass for Star {
    ghost holds = { λ byte. byte == 42 };

    fn has(byte: u8) -> bool {
        byte == b'*'
    }

    fn strangers(bytes: u8x16) -> u64 {
        bytes.simd_ne(u8x16::splat(b'*')).to_bitmask()
    }
}

// What stands ahead of a place, and whether a run of stars may begin there.
const EDGES: &[(&[u8], bool)] = &[
    (b"", true),
    (b".", true),
    (b"*", false),
    (b".*", false),
    (b"*.", true),
];

// Bytes, and how many stars stand in front.
const RUNS: &[(&[u8], usize)] = &[(b"", 0), (b".*", 0), (b"*", 1), (b"**.*", 2), (b"***", 3)];

#[test]
fn a_run_begins_behind_another_byte_and_goes_up_to_one(rt: HostRuntime) {
    for &(before, begins) in EDGES {
        let after: &[u8] = b"*";
        assert_eq!(rt;
            begins_run::<Star>(&Look { before, after }),
            begins,
            "behind {before:?}"
        );
    }
    for &(bytes, stars) in RUNS {
        assert_eq!(rt; run_len::<Star>(bytes), stars, "in {bytes:?}");
    }
}

// So many bytes: stars but for dots at these places.
fn stars(alloc: Global, length: usize, dots: &[usize]) -> Result<Vec<u8>, AllocError> {
    let mut bytes = Vec::new(alloc);
    bytes.resize(length, b'*')?;
    for dot in dots {
        if *dot < length {
            bytes[*dot] = b'.';
        }
    }
    Ok(bytes)
}

// How many stars, the dots among them, the places that are searched, where the run ends in which the first
// stands, and where the first row is.
type RowsRow = (usize, &'static [usize], usize, usize, usize, usize);

const ROWS: &[RowsRow] = &[
    (0, &[], 0, 0, 0, 0),
    (31, &[], 0, 31, 0, 31),
    (32, &[], 0, 32, 0, 0),
    (32, &[], 1, 32, 32, 32),
    (33, &[0], 0, 33, 0, 1),
    (33, &[0], 1, 33, 1, 1),
    (33, &[32], 0, 33, 0, 0),
    (40, &[10], 0, 40, 0, 40),
    (100, &[10, 60], 0, 100, 0, 11),
    (100, &[10, 60], 0, 11, 0, 11),
    (100, &[10, 60], 5, 100, 10, 11),
    (100, &[10, 60], 5, 8, 8, 8),
    (100, &[10, 60], 12, 100, 60, 61),
    (100, &[10, 60], 61, 62, 61, 61),
    (100, &[10, 69], 12, 100, 69, 100),
    (100, &[10, 60], 100, 100, 100, 100),
    (
        200,
        &[15, 31, 47, 63, 79, 95, 111, 127, 143],
        0,
        200,
        0,
        144,
    ),
    (200, &[20, 51, 83, 115, 147, 178], 0, 200, 0, 200),
    (200, &[20, 51, 83, 116, 147, 178], 0, 200, 0, 84),
];

fn is_row(alloc: Global, row: RowsRow) -> Result<bool, AllocError> {
    let (length, dots, next, to, end, at) = row;
    let bytes = stars(alloc, length, dots)?;
    if next > to || to > bytes.len() {
        return Ok(false);
    }
    let is_end = past_run::<Star>(bytes.as_slice(), next, to) == end;
    Ok(is_end && next_row::<Star>(bytes.as_slice(), next, to) == at)
}

#[test]
fn a_row_is_found_where_its_run_begins(rt: HostRuntime) -> Result<(), Fail> {
    for &row in ROWS {
        let is_so = is_row(rt.alloc(), row)?;
        assert!(rt; is_so, "of {} from {} to {}", row.0, row.2, row.3);
    }
    Ok(())
}
