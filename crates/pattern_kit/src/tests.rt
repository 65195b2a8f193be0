ghost use Rattle.std.specs.Prelude.{◌≡◌, IsTrue};

use crate::passing::{Passing, passing_of};
use crate::regex_matcher::fill_one_by_one;
use crate::{Kit, KitFault, Matcher, RegexKit, WordKit};
use regex::bytes::Regex;
use std::alloc::Global;
use std::test::Fail;

// The lengths of the text's pattern at the places of the bytes from `from` on.
fn lens<K: Kit>(
    kit: &mut K,
    alloc: Global,
    index: u32,
    text: &str,
    bytes: &[u8],
    from: usize,
) -> Result<Vec<u32>, KitFault>
    requires { IsTrue (K.may_build kit.old index text.now) }
    ensures { K.may_build kit.new ≡ K.may_build kit.old }
{
    let mut matcher = kit.build(alloc, index, text)?;
    let Ok(mut lens) = vec![in alloc; 7u32; bytes.len().saturating_sub(from)] else {
        return Err(KitFault::NoMemory);
    };
    if from > bytes.len() {
        return Ok(lens);
    }
    match matcher.lens_at(alloc, bytes, from, lens.as_mut_slice()) {
        Ok(()) => Ok(lens),
        Err(_) => Err(KitFault::NoMemory),
    }
}

// The lengths at all places, each one judged without a search ahead.
fn lens_one_by_one(alloc: Global, text: &str, bytes: &[u8]) -> Result<Vec<u32>, Fail> {
    let regex = Regex::new(alloc, text)?;
    let mut lens = vec![in alloc; 7u32; bytes.len()]?;
    fill_one_by_one(alloc, &regex, bytes, 0, lens.as_mut_slice())?;
    Ok(lens)
}

fn total(lens: &[u32]) -> u64 {
    let mut total: u64 = 0;
    for len in lens {
        total = total.saturating_add(u64::from(*len));
    }
    total
}

// Patterns, bytes, and the length at each place.
const ROWS: [(&str, &[u8], &[u32]); 13] = [
    ("^a", b"aab", &[1, 1, 0]),
    ("a+", b"xaab", &[0, 2, 1, 0]),
    ("a|ab", b"ab", &[1, 0]),
    ("ab|a", b"ab", &[2, 0]),
    ("x*", b"yx", &[0, 1]),
    (".", b"\xc3\xa9\n\xff", &[2, 0, 0, 0]),
    ("(?i)k", b"kK\xe2\x84\xaa", &[1, 1, 3, 0, 0]),
    ("xz$", b"xzxz", &[0, 0, 2, 0]),
    ("x\\b", b"xyx x", &[0, 0, 1, 0, 1]),
    (
        "\\bword\\b",
        b"sword words word",
        &[0, 4, 0, 0, 0, 0, 0, 0, 0, 0, 0, 0, 4, 0, 0, 0],
    ),
    ("a.c", b"abcac", &[3, 0, 0, 0, 0]),
    ("b", b"", &[]),
    ("b", b"b", &[1]),
];

#[test]
fn a_pattern_is_matched_at_each_place(rt: HostRuntime) -> Result<(), Fail> {
    let mut kit = RegexKit::make();
    for (text, bytes, want) in ROWS {
        let found = lens(&mut kit, rt.alloc(), 0, text, bytes, 0)?;
        assert_eq!(rt; found.as_slice(), want, "{text}");
        let judged = lens_one_by_one(rt.alloc(), text, bytes)?;
        assert_eq!(rt; judged.as_slice(), want, "{text}");
    }
    Ok(())
}

#[test]
fn a_place_sees_256_bytes(rt: HostRuntime) -> Result<(), Fail> {
    let mut kit = RegexKit::make();
    // The first 45 places see 256 letters, the others those that are left.
    let found = lens(&mut kit, rt.alloc(), 0, "b+$", &[b'b'; 300], 0)?;
    assert_eq!(rt; found.len(), 300);
    for (at, len) in found.iter().enumerate() {
        let want = if at < 45 { 256 } else { 300 - at };
        assert_eq!(rt; *len as usize, want, "{at}");
    }
    // An `a`, letters `x` and a `z`: 256 bytes from place 0 on, and 257 from place 256 on.
    let mut bytes = [b'x'; 513];
    bytes[0] = b'a';
    bytes[255] = b'z';
    bytes[256] = b'a';
    bytes[512] = b'z';
    let found = lens(&mut kit, rt.alloc(), 0, "ax*z", &bytes, 0)?;
    assert_eq!(rt; total(found.as_slice()), 256);
    assert_eq!(rt; found.first(), Some(&256));
    Ok(())
}

#[test]
fn a_call_may_ask_for_the_last_places_alone(rt: HostRuntime) -> Result<(), Fail> {
    let mut kit = RegexKit::make();
    let found = lens(&mut kit, rt.alloc(), 0, "a+", &[b'a'; 300], 45)?;
    assert_eq!(rt; found.len(), 255);
    assert_eq!(rt; found.first(), Some(&255));
    assert_eq!(rt; total(found.as_slice()), 255 * 128);
    let found = lens(&mut kit, rt.alloc(), 0, "^a", b"xaba", 3)?;
    assert_eq!(rt; found.as_slice(), [1].as_slice());
    Ok(())
}

#[test]
fn a_text_that_is_no_pattern_is_counted(rt: HostRuntime) -> Result<(), Fail> {
    let mut kit = RegexKit::make();
    assert_eq!(rt; (kit.refusals(), kit.last_refusal()), (0, None));
    assert!(rt; matches!(kit.build(rt.alloc(), 3, "("), Err(KitFault::Refused)));
    assert_eq!(rt; (kit.refusals(), kit.last_refusal()), (1, Some(3)));
    assert!(rt; kit.build(rt.alloc(), 4, "()").is_ok());
    assert_eq!(rt; (kit.refusals(), kit.last_refusal()), (1, Some(3)));
    Ok(())
}

#[test]
fn places_are_passed_with_assertions_and_without(rt: HostRuntime) {
    let alloc = rt.alloc();
    assert!(rt; matches!(passing_of(alloc, "a+"), Passing::ByItself));
    assert!(rt; matches!(passing_of(alloc, "[a-z](b|\\d{2,})*"), Passing::ByItself));
    assert!(rt; matches!(passing_of(alloc, "^a"), Passing::BySieve(_)));
    assert!(rt; matches!(passing_of(alloc, "(a|b\\b)*"), Passing::BySieve(_)));
}

// The same for words.
const WORDS: [(&str, &[u8], &[u32]); 3] = [
    ("a.c", b"abca.c", &[0, 0, 0, 3, 0, 0]),
    ("aa", b"aaaxaa", &[2, 2, 0, 0, 2, 0]),
    ("", b"aaaxaa", &[0, 0, 0, 0, 0, 0]),
];

#[test]
fn a_word_is_matched_byte_by_byte(rt: HostRuntime) -> Result<(), Fail> {
    let mut kit = WordKit::make(0);
    for (text, bytes, want) in WORDS {
        let found = lens(&mut kit, rt.alloc(), 0, text, bytes, 0)?;
        assert_eq!(rt; found.as_slice(), want, "{text}");
    }
    Ok(())
}

// The index of a build, whether it is refused by the bits 1 and 7, and how many were so far.
const BUILDS: [(u32, bool, u64); 9] = [
    (0, false, 0),
    (1, true, 1),
    (2, false, 1),
    (7, true, 2),
    (8, false, 2),
    (9, false, 2),
    (15, false, 2),
    (39, false, 2),
    (u32::MAX, false, 2),
];

#[test]
fn a_build_of_words_is_refused_by_its_bit(rt: HostRuntime) {
    let mut kit = WordKit::make(0b1000_0010);
    for (index, refused, count) in BUILDS {
        let result = kit.build(rt.alloc(), index, "a");
        assert_eq!(rt; result.is_err(), refused, "{index}");
        assert_eq!(rt; kit.refusals(), count, "{index}");
    }
    assert_eq!(rt; kit.last_refusal(), Some(7));
}
