// Which settings lawful words give.
use super::{read, settings_of};
use crate::{Command, Settings};
use byte_kit::{Name, NoMemory};
use std::alloc::Global;
use std::test::Fail;

// The numbers of settings in the order of their fields, those of the plan last.
fn numbers(settings: &Settings) -> [u64; 10] {
    let plan = &settings.plan;
    [
        settings.page,
        settings.margin,
        u64::from(settings.workers),
        settings.limit,
        u64::from(plan.scanners),
        u64::from(plan.depth),
        u64::from(plan.mask),
        u64::from(plan.word_min),
        u64::from(plan.word_max),
        u64::from(plan.context),
    ]
}

// Lawful words, and the numbers that they set.
const NUMBERS: &[(&[&str], [u64; 10])] = &[
    (
        &["scan", "i", "o"],
        [
            16_777_216,
            4_194_304,
            4,
            1_099_511_627_776,
            0x03BF,
            5,
            0,
            6,
            14,
            16,
        ],
    ),
    (
        &[
            "generate",
            "--page",
            "512",
            "--margin",
            "131072",
            "--workers",
            "8",
            "--spool-limit",
            "1",
            "-e",
            "word",
            "--depth",
            "7",
            "--xor",
            "255",
            "--word-min",
            "3",
            "--word-max",
            "256",
            "--context",
            "0",
            "7",
            "0",
        ],
        [512, 131_072, 8, 1, 0x03FF, 7, 255, 3, 256, 0],
    ),
    (
        &["scan", "-e", "url", "-x", "url", "i", "o"],
        [
            16_777_216,
            4_194_304,
            4,
            1_099_511_627_776,
            0x03BE,
            5,
            0,
            6,
            14,
            16,
        ],
    ),
    (
        &["scan", "-x", "url", "-e", "url", "-x", "utf16", "i", "o"],
        [
            16_777_216,
            4_194_304,
            4,
            1_099_511_627_776,
            0x01BF,
            5,
            0,
            6,
            14,
            16,
        ],
    ),
];

// The words set these numbers.
fn sets(alloc: Global, words: &[&str], expected: [u64; 10]) -> Result<bool, NoMemory> {
    match read(alloc, words)? {
        Ok(command) => Ok(numbers(settings_of(&command)) == expected),
        Err(_) => Ok(false),
    }
}

#[test]
fn options_set_their_numbers_and_the_others_are_the_defaults(rt: HostRuntime) -> Result<(), Fail> {
    for &(words, expected) in NUMBERS {
        assert!(rt; sets(rt.alloc(), words, expected)?);
    }
    Ok(())
}

// The name is this one.
fn is_name(name: &Option<Name>, expected: &str) -> bool {
    match name {
        Some(name) => name.as_str() == expected,
        None => false,
    }
}

// Settings with texts, lists and a log.
fn has_texts(settings: &Settings) -> bool {
    let keywords = settings.plan.keywords.items();
    let patterns = settings.plan.patterns.items();
    keywords.len() == 2
        && keywords[0].as_slice() == b"a".as_slice()
        && keywords[1].as_slice() == b"--log".as_slice()
        && patterns.len() == 1
        && patterns[0].as_str() == "c+"
        && is_name(&settings.stop, "-s")
        && is_name(&settings.alert, "")
        && settings.with_log
}

// Words with texts, lists and a log. A value may begin with a dash, and so may a word behind the first place.
const TEXTS: &[&str] = &[
    "scan",
    "--find",
    "a",
    "--pattern",
    "c+",
    "--stop",
    "-s",
    "--log",
    "--find",
    "--log",
    "--alert",
    "",
    "i",
    "--log",
    "o",
];

#[test]
fn texts_and_names_are_the_words_that_stand_behind_their_options(
    rt: HostRuntime,
) -> Result<(), Fail> {
    let Ok(
        Command::Scan {
            settings,
            parts,
            place,
        },
    ) = read(rt.alloc(), TEXTS)?
    else {
        return Err(Fail::new("refused"));
    };
    assert!(rt; has_texts(&settings));
    assert!(rt; parts.items().len() == 2);
    assert!(rt; parts.items()[0].as_str() == "i" && parts.items()[1].as_str() == "--log");
    assert!(rt; place.as_str() == "o");
    Ok(())
}

// The places of `generate`: a seed and a size.
const MADE: &[(&[&str], u64, u64)] = &[
    (&["generate", "7", "0"], 7, 0),
    (
        &["generate", "--log", "18446744073709551615", "67108864"],
        u64::MAX,
        67_108_864,
    ),
];

#[test]
fn an_image_is_made_from_a_seed_and_a_size(rt: HostRuntime) -> Result<(), Fail> {
    for &(words, expected_seed, expected_size) in MADE {
        let Ok(Command::Generate { seed, size, .. }) = read(rt.alloc(), words)? else {
            return Err(Fail::new("refused"));
        };
        assert!(rt; seed == expected_seed && size == expected_size);
    }
    Ok(())
}
