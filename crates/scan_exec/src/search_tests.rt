use crate::find_execs;
use byte_kit::NoMemory;
use forensic_path::Kind::{self, Exec, Unread};
use sbuf_nest::{Found, Mark, Sbuf};
use std::alloc::Global;
use std::test::Fail;

const GZIP: &[u8] = b"\x1f\x8b\x08";

const ZIP: &[u8] = b"PK\x03\x04";

const ELF: &[u8] = b"\x7fELF\x02\x01\x01\0\0\0\0\0\0\0\0\0\x02\0\x3e\0";

const PE: &[u8] =
    b"MZ\0\0\0\0\0\0\0\0\0\0\0\0\0\0\0\0\0\0\0\0\0\0\0\0\0\0\0\0\0\0\0\0\0\0\0\0\0\0\0\0\0\0\0\0\0\0\0\0\0\0\0\0\0\0\0\0\0\0\x40\0\0\0PE\0\0\x4c\x01\x03\0\x01\0\0\0";

// The kind, the place and the extent of a mark.
type Wanted = (Kind, usize, u32);

// The mark is that one.
fn is(mark: &Mark, want: &Wanted) -> bool {
    mark.kind == want.0 && mark.at == want.1 && mark.which == 0 && mark.extent == want.2
}

// The marks are those, in this order, and no others.
fn are(marks: &[Mark], want: &[Wanted]) -> bool {
    if marks.len() != want.len() {
        return false;
    }
    for i in 0..marks.len() {
        if !is(&marks[i], &want[i]) {
            return false;
        }
    }
    true
}

// Bytes, whether executables and compressed files are wanted, and the marks.
type Search = (&'static [u8], bool, bool, &'static [Wanted]);

const SEARCHES: &[Search] = &[
    (
        b"\x1f\x8b\x08\x1f\x8b\x08PK\x03",
        true,
        true,
        &[(Unread, 0, 3), (Unread, 3, 3)],
    ),
    (
        b"\x1f\x8b\x08\x1f\x8b\x08PK\x03\x04",
        true,
        true,
        &[(Unread, 0, 3), (Unread, 3, 3), (Unread, 6, 4)],
    ),
    (b"\x1f\x8b\x08PK\x03\x04", true, false, &[]),
    (ELF, true, true, &[(Exec, 0, 20)]),
    (ELF, false, true, &[]),
    (PE, true, true, &[(Exec, 0, 64)]),
    (PE, false, false, &[]),
    (
        b"PK\x03\x04\x7fELF\x01\x02\x01\0\0\0\0\0\0\0\0\0\x02\0\x1f\x8b\x08",
        true,
        true,
        &[(Unread, 0, 4), (Exec, 4, 20), (Unread, 22, 3)],
    ),
    (
        b"PK\x03\x04\x7fELF\x01\x02\x01\0\0\0\0\0\0\0\0\0\x02\0\x1f\x8b\x08",
        true,
        false,
        &[(Exec, 4, 20)],
    ),
    (b"\x1f\x8b\x07PK\x01\x02\x7fELFMZ\x1f", true, true, &[]),
    (b"", true, true, &[]),
];

// The search finds its marks.
fn finds(alloc: Global, search: &Search) -> Result<bool, NoMemory> {
    let (bytes, want_exec, want_unread, want) = *search;
    let mut found = Found::make(alloc);
    find_execs(&Sbuf::child(bytes), want_exec, want_unread, &mut found)?;
    Ok(are(found.marks(), want))
}

#[test]
fn a_search_appends_the_wanted_marks_in_order(rt: HostRuntime) -> Result<(), Fail> {
    for search in SEARCHES {
        assert!(rt; finds(rt.alloc(), search)?, "of {}", search.0.len());
    }
    Ok(())
}

// A search of the places from `from` up to `to` finds these marks.
fn finds_in(
    alloc: Global,
    bytes: &[u8],
    from: usize,
    to: usize,
    want: &[Wanted],
) -> Result<bool, NoMemory> {
    if from > to || to > bytes.len() {
        return Ok(false);
    }
    let mut found = Found::make(alloc);
    find_execs(&Sbuf::of(bytes, from, to, 0), true, true, &mut found)?;
    Ok(are(found.marks(), want))
}

// The marks of what is owned: all of them or none.
fn owned(want: &[Wanted], is_owned: bool) -> &[Wanted] {
    if is_owned {
        return want;
    }
    &[]
}

// The marks of a shape of so many bytes are found where its place is owned, and nothing else is.
fn finds_owned(
    alloc: Global,
    bytes: &[u8],
    at: usize,
    shape: usize,
    want: &[Wanted],
) -> Result<bool, NoMemory> {
    let behind = at.saturating_add(1);
    for (from, to, is_owned) in [
        (0, at, false),
        (0, behind, true),
        (at, at.saturating_add(2), true),
        (0, at.saturating_add(shape), true),
        (at, bytes.len(), true),
        (behind, bytes.len(), false),
    ] {
        if !finds_in(alloc, bytes, from, to, owned(want, is_owned))? {
            return Ok(false);
        }
    }
    Ok(true)
}

// The shape behind `ahead` dots and ahead of `behind` of them.
fn among_dots(
    alloc: Global,
    ahead: usize,
    shape: &[u8],
    behind: usize,
) -> Result<Vec<u8>, NoMemory> {
    let mut bytes = Vec::new(alloc);
    bytes.resize(ahead, b'.')?;
    bytes.extend_from_slice(shape)?;
    for _ in 0..behind {
        bytes.push(b'.')?;
    }
    Ok(bytes)
}

// A shape, and the kind and the extent of its mark.
type Shape = (&'static [u8], Kind, u32);

const SHAPES: &[Shape] = &[
    (ELF, Exec, 20),
    (PE, Exec, 64),
    (GZIP, Unread, 3),
    (ZIP, Unread, 4),
];

// The shape is found at this place, where so many dots stand behind it.
fn is_found_at(alloc: Global, shape: &Shape, at: usize, behind: usize) -> Result<bool, NoMemory> {
    let (shape, kind, extent) = *shape;
    let bytes = among_dots(alloc, at, shape, behind)?;
    let want = [(kind, at, extent)];
    finds_owned(alloc, bytes.as_slice(), at, shape.len(), &want)
}

// The same whether nothing, a byte or more bytes stand behind it.
fn is_found(alloc: Global, shape: &Shape, at: usize) -> Result<bool, NoMemory> {
    for behind in [0, 1, 90] {
        if !is_found_at(alloc, shape, at, behind)? {
            return Ok(false);
        }
    }
    Ok(true)
}

#[test]
fn a_shape_is_found_where_its_place_is_owned(rt: HostRuntime) -> Result<(), Fail> {
    for shape in SHAPES {
        for at in 0..128 {
            assert!(rt;
                is_found(rt.alloc(), shape, at)?,
                "at {at} of {:?}",
                shape.0
            );
        }
    }
    Ok(())
}
