use crate::{WORD_MOST, find_words, next_word_row, word_len};
use byte_kit::NoMemory;
use forensic_path::Kind::Word;
use sbuf_nest::{Found, Look, Mark, Sbuf};
use std::alloc::Global;
use std::test::Fail;

// What stands ahead of a place and from it on, the bounds of words, and the word's length.
type LenRow = (&'static [u8], &'static [u8], u16, u16, Option<u32>);

const LENGTHS: &[LenRow] = &[
    (b"", b"berry", 6, 14, None),
    (b"", b"cherry", 6, 14, Some(6)),
    (b"", b"huckle-berries", 6, 14, Some(14)),
    (b"", b"huckle-berries!", 6, 14, None),
    (b" ", b"cherry tree", 6, 14, Some(6)),
    (b"x", b"cherry", 6, 14, None),
    (b"x ", b"cherry\n", 6, 14, Some(6)),
    (b"!", b"cherry", 6, 14, None),
    (b"~", b"cherry", 6, 14, None),
    (b"\x7f", b"cherry", 6, 14, Some(6)),
    (b"", b"!~\x7f!~", 2, 2, Some(2)),
    (b"", b" cherry", 1, 14, None),
    (b"", b"\x7fcherry", 1, 14, None),
    (b"", b"caf\xc3\xa9", 1, 14, Some(3)),
    (b"", b"a", 1, 1, Some(1)),
    (b"", b"", 1, WORD_MOST, None),
];

// The length of the word by bounds that are lawful.
fn length_of(before: &[u8], after: &[u8], min: u16, max: u16) -> Option<u32> {
    if 1 <= min && min <= max && max <= WORD_MOST {
        word_len(&Look { before, after }, min, max)
    } else {
        Some(0)
    }
}

#[test]
fn a_word_is_a_whole_run_within_its_bounds(rt: HostRuntime) {
    for &(before, after, min, max, want) in LENGTHS {
        assert_eq!(rt;
            length_of(before, after, min, max),
            want,
            "at {before:?} and {after:?}"
        );
    }
}

#[test]
fn a_word_has_up_to_256_bytes(rt: HostRuntime) {
    let letters = [b'a'; 300];
    for (count, want) in [(255, Some(255)), (256, Some(256)), (257, None), (300, None)] {
        assert_eq!(rt;
            length_of(b"", letters.split_at(count).0, 6, 256),
            want,
            "of {count}"
        );
    }
}

// The words of a buffer, whose places from `from` up to `to` are owned, are these.
fn are_words(
    sb: (&[u8], usize, usize),
    bounds: (u16, u16),
    want: &[(usize, u32)],
    alloc: Global,
) -> Result<bool, NoMemory> {
    let (bytes, from, to) = sb;
    let (min, max) = bounds;
    if from > to || to > bytes.len() || min < 1 || min > max || max > WORD_MOST {
        return Ok(false);
    }
    let mut found = Found::make(alloc);
    find_words(&Sbuf::of(bytes, from, to, 0), min, max, &mut found)?;
    let marks = found.marks();
    Ok(
        marks.len() == want.len()
            && marks.iter().zip(want.iter()).all(|(mark, word)| {
                *mark
                    == Mark {
                        at: word.0,
                        kind: Word,
                        which: 0,
                        extent: word.1,
                    }
            }),
    )
}

// A buffer, which of its places are owned, the bounds of words, and the words.
type FindRow = (
    &'static [u8],
    usize,
    usize,
    (u16, u16),
    &'static [(usize, u32)],
);

const BUFFERS: &[FindRow] = &[
    (
        b"a cherry and a strawberry",
        0,
        25,
        (6, 14),
        &[(2, 6), (15, 10)],
    ),
    (
        b"a cherry and a strawberry",
        0,
        25,
        (1, 5),
        &[(0, 1), (9, 3), (13, 1)],
    ),
    (
        b"a cherry and a strawberry",
        3,
        15,
        (1, 14),
        &[(9, 3), (13, 1)],
    ),
    (
        b"a cherry and a strawberry",
        3,
        16,
        (1, 14),
        &[(9, 3), (13, 1), (15, 10)],
    ),
    (b"a cherry and a strawberry", 2, 3, (6, 14), &[(2, 6)]),
    (b"a cherry and a strawberry", 3, 3, (1, 14), &[]),
    (
        b"berry cherry huckle-berries huckle-berries!",
        0,
        43,
        (6, 14),
        &[(6, 6), (13, 14)],
    ),
    (
        b"berry cherry huckle-berries huckle-berries!",
        0,
        43,
        (5, 15),
        &[(0, 5), (6, 6), (13, 14), (28, 15)],
    ),
    (b" !~\x7f!~ ", 0, 7, (2, 2), &[(1, 2), (4, 2)]),
    (b"cherry", 0, 6, (6, 6), &[(0, 6)]),
    (b"cherry", 0, 1, (6, 6), &[(0, 6)]),
    (b"cherry", 1, 6, (1, 6), &[]),
    (b"cherr", 0, 5, (6, 6), &[]),
    (b"", 0, 0, (1, 256), &[]),
];

#[test]
fn the_words_of_the_owned_places_are_found(rt: HostRuntime) -> Result<(), Fail> {
    for &(bytes, from, to, bounds, want) in BUFFERS {
        assert!(rt;
            are_words((bytes, from, to), bounds, want, rt.alloc())?,
            "in {bytes:?} from {from} to {to}"
        );
    }
    Ok(())
}

// A word between blanks, so many of them ahead of it, and so many bytes in all.
fn spaced(alloc: Global, ahead: usize, word: &[u8], length: usize) -> Result<Vec<u8>, NoMemory> {
    let mut bytes = Vec::new(alloc);
    bytes.resize(ahead, b' ')?;
    bytes.extend_from_slice(word)?;
    bytes.resize(length, b' ')?;
    Ok(bytes)
}

#[test]
fn no_offset_hides_a_word(rt: HostRuntime) -> Result<(), Fail> {
    for at in 0..90 {
        let bytes = spaced(rt.alloc(), at, b"cherry", 96)?;
        for min in 1..7 {
            assert!(rt;
                are_words((bytes.as_slice(), 0, 96), (min, 6), &[(at, 6)], rt.alloc())?,
                "{min} at {at}"
            );
        }
    }
    Ok(())
}

// 220 letters.
const LETTERS: [u8; 220] = [b'a'; 220];

// A word and how many blanks stand ahead of it, the first owned place, the bounds, and the words.
type AheadRow = (
    &'static [u8],
    usize,
    usize,
    (u16, u16),
    &'static [(usize, u32)],
);

const AHEAD: &[AheadRow] = &[
    (b"strawberry", 508, 0, (6, 14), &[(508, 10)]),
    (b"strawberry", 508, 508, (6, 14), &[(508, 10)]),
    (b"strawberry", 508, 512, (6, 14), &[]),
    (&LETTERS, 20, 0, (1, 256), &[(20, 220)]),
    (&LETTERS, 20, 220, (1, 256), &[]),
    (&LETTERS, 20, 0, (6, 14), &[]),
];

#[test]
fn no_word_begins_within_a_run_that_began_ahead(rt: HostRuntime) -> Result<(), Fail> {
    for &(word, ahead, from, bounds, want) in AHEAD {
        let bytes = spaced(rt.alloc(), ahead, word, 1024)?;
        let found = are_words((bytes.as_slice(), from, 1024), bounds, want, rt.alloc())?;
        assert!(rt; found, "{word:?} from {from}");
    }
    Ok(())
}

// Where the next row is looked for among 256 bytes: so many letters behind so many blanks, and blanks behind them.
fn next_row_in(alloc: Global, ahead: usize, letters: usize) -> Result<usize, NoMemory> {
    let word = &LETTERS[..letters.min(LETTERS.len())];
    let bytes = spaced(alloc, ahead, word, 256)?;
    Ok(next_word_row(bytes.as_slice(), 0, bytes.len()))
}

#[test]
fn a_row_has_32_word_bytes_at_every_offset(rt: HostRuntime) -> Result<(), Fail> {
    for at in 0..200 {
        for (letters, wanted) in [(31, 256), (32, at), (33, at), (56, at)] {
            assert_eq!(rt;
                next_row_in(rt.alloc(), at, letters)?,
                wanted,
                "{letters} at {at}"
            );
        }
    }
    Ok(())
}
