// Images that are made, and what is found in them.
use super::calls::ended;
use super::{MemOutcome, call_over_nothing, call_with, sink_of};
use crate::Status;
use byte_kit::NoMemory;
use host_disk::MemDisk;
use host_source::MemSource;
use pattern_kit::WordKit;
use std::alloc::Global;
use std::test::Fail;

// What eight blocks hold, whatever the seed.
const EIGHT_BLOCKS: &str =
    "done pages=1 features=14\nurl.txt 4\ndomain.txt 4\nip.txt 2\nether.txt 2\nexec.txt 1\nunread.txt 1\n";

// What one block holds.
const ONE_BLOCK: &str = "done pages=1 features=2\nurl.txt 1\ndomain.txt 1\n";

// Words, and the text of their call.
const IMAGES: &[(&[&str], &str)] = &[
    (&["generate", "7", "0"], "done pages=0 features=0\n"),
    (&["generate", "7", "1"], "done pages=1 features=0\n"),
    (&["generate", "7", "4095"], ONE_BLOCK),
    (&["generate", "7", "4096"], ONE_BLOCK),
    (&["generate", "7", "32768"], EIGHT_BLOCKS),
    (
        &["generate", "7", "65536"],
        "done pages=1 features=28\nurl.txt 8\ndomain.txt 8\nip.txt 4\nether.txt 4\nexec.txt 2\nunread.txt 2\n",
    ),
    (&["generate", "0", "32768"], EIGHT_BLOCKS),
    (&["generate", "18446744073709551615", "32768"], EIGHT_BLOCKS),
    // Options say what is looked for, and how many pages there are.
    (
        &[
            "generate", "--page", "512", "-x", "url", "--depth", "0", "--find", "kept", "7",
            "32768",
        ],
        "done pages=64 features=8\ndomain.txt 1\nip.txt 2\nether.txt 2\nexec.txt 1\nunread.txt 1\nfind.txt 1\n",
    ),
    (
        &["generate", "--pattern", "kept", "7", "4096"],
        "done pages=1 features=3\nurl.txt 1\ndomain.txt 1\nfind.txt 1\n",
    ),
];

// No object that was handed in was asked for anything, but the sink, which took this text.
fn is_made<K>(outcome: &MemOutcome<K>, status: Status, text: &str) -> bool {
    ended(outcome, status, &[], &[]) && outcome.out.bytes() == text.as_bytes()
}

// The call is done, and puts this text.
fn finds(alloc: Global, words: &[&str], text: &str) -> Result<bool, NoMemory> {
    let outcome = call_over_nothing(alloc, words)?;
    Ok(outcome.sources.len() == 1 && is_made(&outcome, Status::Done, text))
}

#[test]
fn what_is_made_is_found(rt: HostRuntime) -> Result<(), Fail> {
    for (words, text) in IMAGES {
        assert!(rt; finds(rt.alloc(), words, text)?, "not {text}");
    }
    Ok(())
}

// A call with a kit that refuses these patterns and a sink that may fail, over objects that hold nothing.
fn call_failing(
    alloc: Global,
    words: &[&str],
    refused: u8,
    put_fails: bool,
) -> Result<MemOutcome, NoMemory> {
    let (source, lists) = (MemSource::make(alloc), MemSource::make(alloc));
    let (disk, sink) = (MemDisk::make(alloc), sink_of(alloc, put_fails)?);
    let kit = WordKit::make(refused);
    call_with(alloc, words, source, lists, disk, kit, sink)
}

// Words, the patterns that the kit refuses, a bit each, whether the put fails, and how the call ends.
const REFUSALS: &[(&[&str], u8, bool, Status, &str)] = &[
    (
        &["generate", "--pattern", "a", "--pattern", "b", "7", "1"],
        0b10,
        false,
        Status::PatternRefused { index: 1 },
        "pattern refused: 1\n",
    ),
    (
        &["generate", "7", "1"],
        0,
        true,
        Status::OutFault,
        "done pages=1",
    ),
];

#[test]
fn a_kit_and_a_sink_may_refuse_an_image_that_is_made(rt: HostRuntime) -> Result<(), Fail> {
    for (words, refused, put_fails, status, text) in REFUSALS {
        let outcome = call_failing(rt.alloc(), words, *refused, *put_fails)?;
        assert!(rt; is_made(&outcome, *status, text), "not {text}");
    }
    Ok(())
}
