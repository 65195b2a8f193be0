// Which calls are refused, with what status and what line.
use super::calls::{ATTACH, READ, ended};
use super::{MemOutcome, call_over_nothing, call_with_two, scan_failing};
use crate::{List, ReadPlace, Status, Unbuilt, Why};
use byte_kit::NoMemory;
use host_disk::DiskCall;
use host_source::SourceCall;
use std::alloc::Global;
use std::test::Fail;

// How a call ends that is refused: its status, what the sink took of its line, of how many bytes that is,
// and the calls of the source and of the disk.
#[derive(Drop)]
struct Refusal {
    status: Status,
    taken: &'static str,
    put: usize,
    read: &'static [SourceCall],
    written: &'static [DiskCall],
}

// The call ended so.
fn is_refused(outcome: &MemOutcome, refusal: &Refusal) -> bool {
    ended(outcome, refusal.status, refusal.read, refusal.written)
        && outcome.out.bytes() == refusal.taken.as_bytes()
        && outcome.out.puts() == [refusal.put].as_slice()
}

// A refusal ahead of all calls, whose line is taken whole.
fn of_words(status: Status, line: &'static str) -> Refusal {
    Refusal {
        status,
        taken: line,
        put: line.len(),
        read: &[],
        written: &[],
    }
}

// The words are refused so, ahead of all calls, and this line is put.
fn refuses(
    alloc: Global,
    words: &[&str],
    status: Status,
    line: &'static str,
) -> Result<bool, NoMemory> {
    let outcome = call_over_nothing(alloc, words)?;
    Ok(is_refused(&outcome, &of_words(status, line)))
}

// Words, the one that is named, why, and the line.
const BAD_WORDS: &[(&[&str], u32, Why, &str)] = &[
    (&[], 0, Why::NoCommand, "usage: word 0: no command\n"),
    (
        &["scam", "i", "o"],
        0,
        Why::UnknownCommand,
        "usage: word 0: unknown command\n",
    ),
    (
        &["scan", "i"],
        2,
        Why::PlaceMissing,
        "usage: word 2: place missing\n",
    ),
    (
        &["scan", "--page", "511", "i", "o"],
        2,
        Why::BadNumber,
        "usage: word 2: bad number\n",
    ),
    (
        &["scan", "-e", "phone", "i", "o"],
        2,
        Why::UnknownScanner,
        "usage: word 2: unknown scanner\n",
    ),
    (
        &["scan", "--word-min", "9", "--word-max", "8", "i", "o"],
        7,
        Why::WordBounds,
        "usage: word 7: word bounds crossed\n",
    ),
    (
        &["generate", "--stop", "s", "7", "0"],
        1,
        Why::UnknownOption,
        "usage: word 1: unknown option\n",
    ),
];

#[test]
fn words_are_judged_from_left_to_right(rt: HostRuntime) -> Result<(), Fail> {
    for (words, word, why, line) in BAD_WORDS {
        let (word, why) = (*word, *why);
        assert!(rt;
            refuses(rt.alloc(), words, Status::Usage { word, why }, line)?,
            "not {line}"
        );
    }
    Ok(())
}

// Words of a form that isn't built, the form, and the line.
const UNBUILT: &[(&[&str], Unbuilt, &str)] = &[
    (
        &["generate", "--log", "7", "0"],
        Unbuilt::Log,
        "not yet: log\n",
    ),
    (
        &["scan", "--log", "a", "b", "o"],
        Unbuilt::Log,
        "not yet: log\n",
    ),
    (
        &["scan", "--stop", "s", "--log", "i", "o"],
        Unbuilt::Log,
        "not yet: log\n",
    ),
];

#[test]
fn a_form_that_is_not_built_is_refused(rt: HostRuntime) -> Result<(), Fail> {
    for (words, what, line) in UNBUILT {
        let what = *what;
        assert!(rt;
            refuses(rt.alloc(), words, Status::NotYet { what }, line)?,
            "not {line}"
        );
    }
    Ok(())
}

// Statuses and their numbers.
const NUMBERS: &[(Status, u8)] = &[
    (Status::Done, 0),
    (
        Status::Usage {
            word: 0,
            why: Why::NoCommand,
        },
        2,
    ),
    (
        Status::ListTooLong {
            list: List::Stop,
            size: 1,
        },
        3,
    ),
    (
        Status::ReadFault {
            place: ReadPlace::Image,
        },
        4,
    ),
    (Status::PatternRefused { index: 1 }, 5),
    (Status::TooManyPages { pages: 1 }, 7),
    (Status::DiskFault, 8),
    (Status::OutFault, 13),
    (Status::NoMemory, 14),
    (Status::NotYet { what: Unbuilt::Log }, 15),
];

#[test]
fn a_status_has_its_number(rt: HostRuntime) {
    for (status, number) in NUMBERS {
        assert_eq!(rt; status.number(), *number);
    }
}

// The calls of the source and of the disk that fail, whether the put fails, and how the scan of `ftp://a` ends.
const FAULTS: &[(&[u64], &[u64], bool, Refusal)] = &[
    (
        &[0],
        &[],
        false,
        Refusal {
            status: Status::ReadFault {
                place: ReadPlace::Image,
            },
            taken: "read fault: image\n",
            put: 18,
            read: &[ATTACH],
            written: &[],
        },
    ),
    (
        &[1],
        &[],
        false,
        Refusal {
            status: Status::ReadFault {
                place: ReadPlace::Page(0),
            },
            taken: "read fault: page 0\n",
            put: 19,
            read: &[ATTACH, READ],
            written: &[DiskCall::Mount],
        },
    ),
    (
        &[],
        &[0],
        false,
        Refusal {
            status: Status::DiskFault,
            taken: "disk fault\n",
            put: 11,
            read: &[ATTACH],
            written: &[DiskCall::Mount],
        },
    ),
    // A refusal stays though its line can't be put.
    (
        &[],
        &[0],
        true,
        Refusal {
            status: Status::DiskFault,
            taken: "disk ",
            put: 11,
            read: &[ATTACH],
            written: &[DiskCall::Mount],
        },
    ),
];

#[test]
fn a_fault_ends_the_scan(rt: HostRuntime) -> Result<(), Fail> {
    for (source_fails, disk_fails, put_fails, refusal) in FAULTS {
        let outcome = scan_failing(rt.alloc(), b"ftp://a", source_fails, disk_fails, *put_fails)?;
        assert!(rt; is_refused(&outcome, refusal), "not {}", refusal.taken);
    }
    Ok(())
}

// A call over two sources ends so, and hands both back.
fn two_come_back(alloc: Global, status: Status) -> Result<bool, NoMemory> {
    let outcome = call_with_two(alloc, &["scan", "i", "o"])?;
    Ok(outcome.status == status && outcome.sources.len() == 2 && outcome.disk.file(1).is_empty())
}

#[test]
fn every_source_comes_back(rt: HostRuntime) -> Result<(), Fail> {
    let place = ReadPlace::Image;
    assert!(rt; two_come_back(rt.alloc(), Status::ReadFault { place })?);
    Ok(())
}
