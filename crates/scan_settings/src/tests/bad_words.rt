// Which words are refused, by the number of the first bad one and by what is wrong with it.
use super::refuses;
use crate::Why;
use byte_kit::NoMemory;
use std::alloc::Global;
use std::test::Fail;

// Words, the one that is named, and why.
const BAD_WORDS: &[(&[&str], u32, Why)] = &[
    (&[], 0, Why::NoCommand),
    (&["scam", "i", "o"], 0, Why::UnknownCommand),
    (&[""], 0, Why::UnknownCommand),
    (&["scan"], 1, Why::PlaceMissing),
    (&["scan", "i"], 2, Why::PlaceMissing),
    (&["scan", "--log", "i"], 3, Why::PlaceMissing),
    (&["scan", "--page=512", "i", "o"], 1, Why::UnknownOption),
    (&["scan", "--", "i", "o"], 1, Why::UnknownOption),
    (&["scan", "-", "i", "o"], 1, Why::UnknownOption),
    (&["scan", "--page", "-x", "i", "o"], 2, Why::BadNumber),
    (&["scan", "--page", "0512", "i", "o"], 2, Why::BadNumber),
    (&["scan", "--page", "+512", "i", "o"], 2, Why::BadNumber),
    (&["scan", "--page", "", "i", "o"], 2, Why::BadNumber),
    (&["scan", "-e", "phone", "i", "o"], 2, Why::UnknownScanner),
    (&["scan", "-x", "--log", "i", "o"], 2, Why::UnknownScanner),
    (&["scan", "-e", "URL", "i", "o"], 2, Why::UnknownScanner),
    (&["scan", "--find", "", "i", "o"], 2, Why::BadText),
    (&["scan", "--pattern", "", "i"], 2, Why::BadText),
    (&["scan", "--log", "--log", "i", "o"], 2, Why::Twice),
    (&["scan", "--page", "512", "--page", "x"], 3, Why::Twice),
    (&["generate"], 1, Why::PlaceMissing),
    (&["generate", "7"], 2, Why::PlaceMissing),
    (&["generate", "x"], 1, Why::BadNumber),
    (&["generate", "7", "0", "x"], 3, Why::ExtraWord),
    (&["generate", "7", "67108865"], 2, Why::BadNumber),
    (&["generate", "7", "67108865", "x"], 2, Why::BadNumber),
    (
        &["generate", "18446744073709551616", "0"],
        1,
        Why::BadNumber,
    ),
    (
        &["generate", "--stop", "s", "7", "0"],
        1,
        Why::UnknownOption,
    ),
    (
        &["generate", "--alert", "s", "7", "0"],
        1,
        Why::UnknownOption,
    ),
];

#[test]
fn the_first_bad_word_is_named_with_what_is_wrong(rt: HostRuntime) -> Result<(), Fail> {
    for &(words, word, why) in BAD_WORDS {
        assert!(rt; refuses(rt.alloc(), words, word, why)?);
    }
    Ok(())
}

// Words whose bounds of words are crossed, alone, and with another bad word ahead of them or behind.
const CROSSED: &[(&[&str], u32, Why)] = &[
    (
        &["scan", "--word-min", "9", "--word-max", "8", "i", "o"],
        7,
        Why::WordBounds,
    ),
    (
        &["generate", "--word-min", "15", "7", "0"],
        5,
        Why::WordBounds,
    ),
    (
        &["scan", "--xor", "0", "--word-min", "15", "i", "o"],
        2,
        Why::BadNumber,
    ),
    (
        &["scan", "--word-min", "15", "--xor", "0", "i", "o"],
        4,
        Why::BadNumber,
    ),
    (&["scan", "--word-max", "5", "i"], 4, Why::PlaceMissing),
];

#[test]
fn crossed_bounds_of_words_are_named_last(rt: HostRuntime) -> Result<(), Fail> {
    for &(words, word, why) in CROSSED {
        assert!(rt; refuses(rt.alloc(), words, word, why)?);
    }
    Ok(())
}

// Each option with a value, and a value that it takes.
const VALUES: &[(&str, &str)] = &[
    ("--page", "512"),
    ("--margin", "131072"),
    ("--workers", "1"),
    ("--depth", "0"),
    ("--xor", "1"),
    ("--word-min", "1"),
    ("--word-max", "256"),
    ("--context", "0"),
    ("--stop", "-s"),
    ("--alert", ""),
    ("--spool-limit", "1"),
];

#[test]
fn an_option_is_given_once_and_with_its_value(rt: HostRuntime) -> Result<(), Fail> {
    for &(name, value) in VALUES {
        let twice = ["scan", name, value, name, value, "i", "o"];
        assert!(rt; refuses(rt.alloc(), twice.as_slice(), 3, Why::Twice)?);
        let last = ["scan", name];
        assert!(rt; refuses(rt.alloc(), last.as_slice(), 2, Why::ValueMissing)?);
    }
    Ok(())
}

// An option with the numbers just outside of its range, and those at its ends.
const RANGES: &[(&str, [&str; 2], [&str; 2])] = &[
    ("--page", ["511", "16777217"], ["512", "16777216"]),
    ("--margin", ["131071", "4194305"], ["131072", "4194304"]),
    ("--workers", ["0", "9"], ["1", "8"]),
    ("--depth", ["-1", "8"], ["0", "7"]),
    ("--xor", ["0", "256"], ["1", "255"]),
    ("--word-min", ["0", "257"], ["1", "256"]),
    ("--word-max", ["0", "257"], ["1", "256"]),
    ("--context", ["-1", "129"], ["0", "128"]),
    (
        "--spool-limit",
        ["0", "281474976710657"],
        ["1", "281474976710656"],
    ),
];

// The value of an option is refused as a number.
fn is_bad_number(alloc: Global, name: &str, value: &str) -> Result<bool, NoMemory> {
    let words = ["scan", name, value, "i", "o"];
    refuses(alloc, words.as_slice(), 2, Why::BadNumber)
}

#[test]
fn a_number_lies_in_its_range(rt: HostRuntime) -> Result<(), Fail> {
    for &(name, outside, ends) in RANGES {
        assert!(rt; is_bad_number(rt.alloc(), name, outside[0])?);
        assert!(rt; is_bad_number(rt.alloc(), name, outside[1])?);
        assert!(rt; !is_bad_number(rt.alloc(), name, ends[0])?);
        assert!(rt; !is_bad_number(rt.alloc(), name, ends[1])?);
    }
    Ok(())
}

// The words `scan`, so many times these two, and two places.
fn many(
    alloc: Global,
    count: usize,
    name: &'static str,
    value: &'static str,
) -> Result<Vec<&'static str>, NoMemory> {
    let mut words = Vec::new(alloc);
    words.push("scan")?;
    for _ in 0..count {
        words.push(name)?;
        words.push(value)?;
    }
    words.push("i")?;
    words.push("o")?;
    Ok(words)
}

// A pair of words, the most of them, and the word that is one too many.
const MOST: &[(&str, &str, usize, u32)] = &[
    ("--find", "a", 64, 129),
    ("--pattern", "a", 4, 9),
    ("i", "i", 31, 66),
];

#[test]
fn there_are_64_keywords_4_patterns_and_65_places_at_most(rt: HostRuntime) -> Result<(), Fail> {
    for &(name, value, most, word) in MOST {
        let words = many(rt.alloc(), most, name, value)?;
        assert!(rt; !refuses(rt.alloc(), words.as_slice(), word, Why::TooMany)?);
        let words = many(rt.alloc(), most + 1, name, value)?;
        assert!(rt; refuses(rt.alloc(), words.as_slice(), word, Why::TooMany)?);
    }
    Ok(())
}
