// Keywords and patterns of the words, and the kit that is asked for them.
use super::calls::ended;
use super::{MemOutcome, call_with, holding};
use crate::Status;
use byte_kit::NoMemory;
use host_disk::MemDisk;
use host_source::{MemSink, MemSource};
use pattern_kit::{Kit, RegexKit, WordKit};
use std::alloc::Global;
use std::test::Fail;

// The number of `find.txt`, and its header.
const FIND: u32 = 7;

const FIND_HEADER: &str =
    "# triage feature file, format 1\n# file: find.txt\n# columns: path, feature, context\n";

// The scan of an image by these words with the kit of the program.
fn scan_by(alloc: Global, words: &[&str], image: &[u8]) -> Result<MemOutcome<RegexKit>, NoMemory> {
    let source = holding(alloc, image)?;
    let (disk, sink) = (MemDisk::make(alloc), MemSink::make(alloc));
    let lists = MemSource::make(alloc);
    call_with(alloc, words, source, lists, disk, RegexKit::make(), sink)
}

// The scan is done, and `find.txt` has these lines.
fn finds<K>(outcome: &MemOutcome<K>, lines: &str) -> bool {
    match outcome.disk.file(FIND).strip_prefix(FIND_HEADER.as_bytes()) {
        Some(behind) => outcome.status == Status::Done && behind == lines.as_bytes(),
        None => false,
    }
}

// Words, an image, and the lines of `find.txt`.
const FOUND: &[(&[&str], &str, &str)] = &[
    (&["scan", "i", "o"], "xaab", ""),
    (
        &["scan", "--find", "aab", "--pattern", "a+", "i", "o"],
        "xaab",
        "1\taab\txaab\n1\taa\txaab\n2\ta\txaab\n",
    ),
    (
        &["scan", "--pattern", "^a", "--pattern", "ab|a", "i", "o"],
        "aab",
        "0\ta\taab\n0\ta\taab\n1\ta\taab\n1\tab\taab\n",
    ),
    (
        &["scan", "--find", "--find", "--find", "a", "i", "o"],
        "a--find",
        "0\ta\ta--find\n1\t--find\ta--find\n",
    ),
    (
        &["scan", "--find", "aa", "--find", "aa", "i", "o"],
        "aaa",
        "0\taa\taaa\n0\taa\taaa\n1\taa\taaa\n1\taa\taaa\n",
    ),
];

#[test]
fn keywords_and_patterns_are_found_at_each_place(rt: HostRuntime) -> Result<(), Fail> {
    for (words, image, lines) in FOUND {
        let outcome = scan_by(rt.alloc(), words, image.as_bytes())?;
        assert!(rt; finds(&outcome, lines), "not {lines}");
    }
    Ok(())
}

// The pattern of this index was refused ahead of all calls, and its line was put.
fn is_refused<K>(outcome: &MemOutcome<K>, index: u32, line: &str) -> bool {
    ended(outcome, Status::PatternRefused { index }, &[], &[])
        && outcome.out.bytes() == line.as_bytes()
}

// Words, the pattern that `regex` refuses, and the line.
const REFUSED: &[(&[&str], u32, &str)] = &[
    (
        &["scan", "--pattern", "(", "i", "o"],
        0,
        "pattern refused: 0\n",
    ),
    (
        &[
            "scan",
            "--pattern",
            "a",
            "--find",
            "b",
            "--pattern",
            "[",
            "i",
            "o",
        ],
        1,
        "pattern refused: 1\n",
    ),
];

#[test]
fn a_pattern_that_cannot_be_read_is_refused_with_its_number(rt: HostRuntime) -> Result<(), Fail> {
    for (words, index, line) in REFUSED {
        let outcome = scan_by(rt.alloc(), words, b"xaab")?;
        assert!(rt; is_refused(&outcome, *index, line), "not {line}");
        assert_eq!(rt; outcome.kit.refusals(), 1);
    }
    Ok(())
}

// The scan by four patterns of an image, with a kit that refuses the builds of these bits.
fn scan_refusing(alloc: Global, refused: u8) -> Result<MemOutcome, NoMemory> {
    let words = [
        "scan",
        "--pattern",
        "a",
        "--pattern",
        "b",
        "--pattern",
        "c",
        "--pattern",
        "d",
        "i",
        "o",
    ];
    let source = holding(alloc, b"dcba")?;
    let (disk, sink) = (MemDisk::make(alloc), MemSink::make(alloc));
    let lists = MemSource::make(alloc);
    let kit = WordKit::make(refused);
    call_with(alloc, &words, source, lists, disk, kit, sink)
}

// The bits of the builds that are refused, and the pattern that is named.
const BUILDS: &[(u8, u32, &str)] = &[
    (0b1000, 3, "pattern refused: 3\n"),
    (0b1110, 1, "pattern refused: 1\n"),
    (0b1111, 0, "pattern refused: 0\n"),
];

#[test]
fn patterns_are_built_in_their_order_up_to_one_that_is_refused(
    rt: HostRuntime,
) -> Result<(), Fail> {
    for (refused, index, line) in BUILDS {
        let outcome = scan_refusing(rt.alloc(), *refused)?;
        assert!(rt; is_refused(&outcome, *index, line), "not {line}");
        assert_eq!(rt; outcome.kit.refusals(), 1);
        assert_eq!(rt; outcome.kit.last_refusal(), Some(*index));
    }
    let outcome = scan_refusing(rt.alloc(), 0)?;
    assert!(rt; finds(&outcome, "0\td\tdcba\n1\tc\tdcba\n2\tb\tdcba\n3\ta\tdcba\n"));
    Ok(())
}
