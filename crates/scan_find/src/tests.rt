use crate::find::PIECE;
use crate::{Lengths, PATTERNS_MOST, are_keywords, find_given_into, find_words_given};
use byte_kit::{Bytes, NoMemory};
use forensic_path::Kind::Find;
use pattern_kit::{Kit, WordKit, WordMatcher};
use sbuf_nest::{Found, Mark, Sbuf};
use std::alloc::Global;
use std::test::Fail;

// A search of a text, and its marks: place, which one, extent.
struct Row {
    text: &'static [u8],
    own: (usize, usize),
    keywords: &'static [&'static [u8]],
    words: &'static [&'static str],
    marks: &'static [(usize, u16, u32)],
}

const ROWS: &[Row] = &[
    // keywords overlap, also with themselves
    Row {
        text: b"aaa",
        own: (0, 3),
        keywords: &[b"aa"],
        words: &[],
        marks: &[(0, 0, 2), (1, 0, 2)],
    },
    Row {
        text: b"xabcabx",
        own: (0, 7),
        keywords: &[b"bca", b"abc", b"cab"],
        words: &[],
        marks: &[(1, 1, 3), (2, 0, 3), (3, 2, 3)],
    },
    // two that are equal
    Row {
        text: b"xab",
        own: (0, 3),
        keywords: &[b"ab", b"ab"],
        words: &[],
        marks: &[(1, 0, 2), (1, 1, 2)],
    },
    // several at one place, in the order in which they were given
    Row {
        text: b"abcd",
        own: (0, 4),
        keywords: &[b"abcd", b"b", b"a", b"abc", b"ab"],
        words: &[],
        marks: &[(0, 0, 4), (0, 2, 1), (0, 3, 3), (0, 4, 2), (1, 1, 1)],
    },
    // patterns behind keywords
    Row {
        text: b"xaab",
        own: (0, 4),
        keywords: &[b"aab"],
        words: &["aa", "a"],
        marks: &[(1, 0, 3), (1, 64, 2), (1, 65, 1), (2, 65, 1)],
    },
    Row {
        text: b"xaab",
        own: (0, 4),
        keywords: &[],
        words: &["q", "b", "q", "ab"],
        marks: &[(2, 67, 2), (3, 65, 1)],
    },
    Row {
        text: b"xaab",
        own: (0, 4),
        keywords: &[],
        words: &[],
        marks: &[],
    },
    // one byte
    Row {
        text: b"a.a.....................a",
        own: (0, 25),
        keywords: &[b"a"],
        words: &[],
        marks: &[(0, 0, 1), (2, 0, 1), (24, 0, 1)],
    },
    Row {
        text: b"\0\xff\0",
        own: (0, 3),
        keywords: &[b"\0", b"\xff\0", b"\0\0"],
        words: &[],
        marks: &[(0, 0, 1), (1, 1, 2), (2, 0, 1)],
    },
    // the end of the buffer
    Row {
        text: b"....................key",
        own: (0, 23),
        keywords: &[b"key", b"keys"],
        words: &["ey"],
        marks: &[(20, 0, 3), (21, 64, 2)],
    },
    Row {
        text: b"....................ke",
        own: (0, 22),
        keywords: &[b"key"],
        words: &["key"],
        marks: &[],
    },
    Row {
        text: b"",
        own: (0, 0),
        keywords: &[b"key"],
        words: &["key"],
        marks: &[],
    },
    // the owned places: a keyword may end behind them
    Row {
        text: b"aaaa",
        own: (1, 3),
        keywords: &[b"aa"],
        words: &["aaa"],
        marks: &[(1, 0, 2), (1, 64, 3), (2, 0, 2)],
    },
    Row {
        text: b"..key..",
        own: (0, 3),
        keywords: &[b"key"],
        words: &["key"],
        marks: &[(2, 0, 3), (2, 64, 3)],
    },
    Row {
        text: b"..key..",
        own: (0, 2),
        keywords: &[b"key"],
        words: &["key"],
        marks: &[],
    },
    Row {
        text: b"..key..",
        own: (3, 7),
        keywords: &[b"key", b"ey"],
        words: &["key", "y."],
        marks: &[(3, 1, 2), (4, 65, 2)],
    },
    // bytes that are mixed of several keywords, and letters of the other case, are none
    Row {
        text: b"ABC abd Abc xbc ayc",
        own: (0, 19),
        keywords: &[b"abc", b"ixd"],
        words: &[],
        marks: &[],
    },
    Row {
        text: b"ibd axc abc ixd",
        own: (0, 15),
        keywords: &[b"abc", b"ixd"],
        words: &[],
        marks: &[(8, 0, 3), (12, 1, 3)],
    },
    Row {
        text: b"password Password",
        own: (0, 17),
        keywords: &[b"Password", b"pass", b"password"],
        words: &["word"],
        marks: &[(0, 1, 4), (0, 2, 8), (4, 64, 4), (9, 0, 8), (13, 64, 4)],
    },
    Row {
        text: b"Project Heron and Project Heron",
        own: (0, 31),
        keywords: &[b"Project Heron"],
        words: &["Heron"],
        marks: &[(0, 0, 13), (8, 64, 5), (18, 0, 13), (26, 64, 5)],
    },
];

// The marks are those at the places, and no others, in this order.
fn are(marks: &[Mark], want: &[(usize, u16, u32)]) -> bool {
    marks.len() == want.len()
        && marks.iter().zip(want).all(|(mark, (at, which, extent))| {
            mark.at == *at && mark.kind == Find && mark.which == *which && mark.extent == *extent
        })
}

fn copies(alloc: Global, texts: &[&[u8]]) -> Result<Vec<Bytes>, NoMemory> {
    let mut keywords = Vec::new(alloc);
    for text in texts {
        keywords.push(Bytes::copy(alloc, text)?)?;
    }
    Ok(keywords)
}

fn matchers(alloc: Global, words: &[&str]) -> Result<Vec<WordMatcher>, NoMemory> {
    let mut kit = WordKit::make(0);
    let mut matchers = Vec::new(alloc);
    for (index, word) in (0..).zip(words) {
        let Ok(matcher) = kit.build(alloc, index, word) else {
            return Err(NoMemory);
        };
        matchers.push(matcher)?;
    }
    Ok(matchers)
}

// What a search of the owned places of a text finds.
fn found(
    alloc: Global,
    text: &[u8],
    own: (usize, usize),
    keywords: &[Bytes],
    words: &[&str],
) -> Result<Found, NoMemory> {
    let mut matchers = matchers(alloc, words)?;
    let mut found = Found::make(alloc);
    let (from, to) = own;
    if from <= to && to <= text.len() && are_keywords(keywords) && matchers.len() <= PATTERNS_MOST {
        let sb = Sbuf::of(text, from, to, 0);
        find_words_given(alloc, &sb, keywords, matchers.as_mut_slice(), &mut found)?;
    }
    Ok(found)
}

#[test]
fn keywords_and_patterns_are_found_at_each_place_by_itself(rt: HostRuntime) -> Result<(), Fail> {
    for row in ROWS {
        let keywords = copies(rt.alloc(), row.keywords)?;
        let marks = found(
            rt.alloc(),
            row.text,
            row.own,
            keywords.as_slice(),
            row.words,
        )?;
        assert!(rt; are(marks.marks(), row.marks), "{:?}", marks.marks());
    }
    Ok(())
}

// A text behind `ahead` dots and ahead of `behind` of them.
fn dotted(alloc: Global, ahead: usize, text: &[u8], behind: usize) -> Result<Vec<u8>, NoMemory> {
    let mut bytes = Vec::new(alloc);
    bytes.resize(ahead, b'.')?;
    bytes.extend_from_slice(text)?;
    for _ in 0..behind {
        bytes.push(b'.')?;
    }
    Ok(bytes)
}

#[test]
fn a_keyword_is_found_where_its_place_is_owned(rt: HostRuntime) -> Result<(), Fail> {
    for text in [b"k".as_slice(), b"ke", b"key"] {
        let keywords = copies(rt.alloc(), &[b"none", text])?;
        for at in 0..80 {
            for behind in [0, 1, 70] {
                let bytes = dotted(rt.alloc(), at, text, behind)?;
                let extent = text.len() as u32;
                for (own, is_owned) in [
                    ((0, at), false),
                    ((0, at + 1), true),
                    ((at, bytes.len()), true),
                    ((at + 1, bytes.len()), false),
                ] {
                    let marks = found(rt.alloc(), bytes.as_slice(), own, keywords.as_slice(), &[])?;
                    let want = [(at, 1, extent)];
                    let want = if is_owned { want.as_slice() } else { &[] };
                    assert!(rt; are(marks.marks(), want), "at {at} of {own:?}");
                }
            }
        }
    }
    Ok(())
}

#[test]
fn no_border_of_a_piece_hides_a_place(rt: HostRuntime) -> Result<(), Fail> {
    let keywords = copies(rt.alloc(), &[b"key"])?;
    for at in [
        PIECE - 3,
        PIECE - 1,
        PIECE,
        PIECE + 1,
        2 * PIECE - 1,
        2 * PIECE,
        2 * PIECE + 5,
    ] {
        let bytes = dotted(rt.alloc(), at, b"key", 2 * PIECE + 5 - at)?;
        let own = (1, bytes.len());
        let marks = found(
            rt.alloc(),
            bytes.as_slice(),
            own,
            keywords.as_slice(),
            &["ke"],
        )?;
        assert!(rt; are(marks.marks(), &[(at, 0, 3), (at, 64, 2)]), "at {at}");
    }
    Ok(())
}

// The pairs of a capital and a small letter of the first eight of each, 64 in all, in a row.
fn pairs(alloc: Global) -> Result<Vec<u8>, NoMemory> {
    let mut pairs = Vec::new(alloc);
    for first in b"ABCDEFGH" {
        for second in b"abcdefgh" {
            pairs.push(*first)?;
            pairs.push(*second)?;
        }
    }
    Ok(pairs)
}

// Each pair of bytes as a keyword.
fn keywords_of(alloc: Global, pairs: &[u8]) -> Result<Vec<Bytes>, NoMemory> {
    let mut keywords = Vec::new(alloc);
    for pair in pairs.chunks_exact(2) {
        keywords.push(Bytes::copy(alloc, pair)?)?;
    }
    Ok(keywords)
}

#[test]
fn each_of_64_keywords_has_its_own_number(rt: HostRuntime) -> Result<(), Fail> {
    let pairs = pairs(rt.alloc())?;
    let keywords = keywords_of(rt.alloc(), pairs.as_slice())?;
    let marks = found(
        rt.alloc(),
        pairs.as_slice(),
        (0, 128),
        keywords.as_slice(),
        &[],
    )?;
    assert_eq!(rt; marks.marks().len(), 64);
    for (which, mark) in (0..64).zip(marks.marks()) {
        assert_eq!(rt;
            (mark.at, mark.which, mark.extent),
            (2 * which as usize, which, 2)
        );
    }
    Ok(())
}

#[test]
fn a_keyword_may_have_256_bytes(rt: HostRuntime) -> Result<(), Fail> {
    let mut long = Vec::new(rt.alloc());
    long.resize(256, b'k')?;
    let keywords = copies(rt.alloc(), &[long.as_slice()])?;
    for (count, at) in [(255, None), (256, Some(3)), (257, Some(3))] {
        let mut bytes = dotted(rt.alloc(), 3, b"", 0)?;
        bytes.resize(3 + count, b'k')?;
        let marks = found(
            rt.alloc(),
            bytes.as_slice(),
            (0, 4),
            keywords.as_slice(),
            &[],
        )?;
        let first = marks.marks().first().map(|mark| mark.at);
        assert_eq!(rt; first, at, "{count} bytes");
    }
    long.push(b'k')?;
    assert!(rt; !are_keywords(copies(rt.alloc(), &[long.as_slice()])?.as_slice()));
    assert!(rt; !are_keywords(copies(rt.alloc(), &[b""])?.as_slice()));
    Ok(())
}

// Searches a text for the words of the matchers.
fn find_words(
    alloc: Global,
    text: &[u8],
    matchers: &mut [WordMatcher],
    lengths: &mut Lengths,
    found: &mut Found,
) -> Result<(), NoMemory> {
    if matchers.len() > PATTERNS_MOST {
        return Ok(());
    }
    find_given_into(alloc, &Sbuf::child(text), &[], matchers, lengths, found)
}

// What searches of several texts find, all over the same lists of lengths.
fn found_in_each(alloc: Global, texts: &[&[u8]], word: &str) -> Result<Found, NoMemory> {
    let mut matchers = matchers(alloc, &[word])?;
    let mut lengths = Lengths::make(alloc);
    let mut found = Found::make(alloc);
    for text in texts {
        find_words(
            alloc,
            text,
            matchers.as_mut_slice(),
            &mut lengths,
            &mut found,
        )?;
    }
    Ok(found)
}

#[test]
fn lists_of_lengths_are_used_again(rt: HostRuntime) -> Result<(), Fail> {
    let texts = [b"....key...key....".as_slice(), b"key.", b"..........key"];
    let marks = found_in_each(rt.alloc(), &texts, "key")?;
    let want = [(4, 64, 3), (10, 64, 3), (0, 64, 3), (10, 64, 3)];
    assert!(rt; are(marks.marks(), &want));
    Ok(())
}
