// Scans by the options of the words, and by a stop list and an alert list.
ghost use Rattle.std.specs.Prelude.{IfOk};
ghost use Rattle.host_source.specs.Source.{IsDetached};
ghost use Rattle.host_source.specs.MemSource.{mem_slots};

use super::calls::{ATTACH, ended};
use super::{MemOutcome, call_with, holding};
use crate::{LIST_MOST, List, ReadPlace, Status};
use byte_kit::NoMemory;
use host_disk::{DiskCall, MemDisk};
use host_source::{MemSink, MemSource, SourceCall};
use pattern_kit::WordKit;
use std::alloc::Global;
use std::test::Fail;

// The most bytes of a list in these tests.
const LIST_LONGEST: usize = 16_777_217;

// A source that holds the stop list `s` and the alert list `a`, in which these calls fail.
fn lists_of(alloc: Global, stop: &[u8], alert: &[u8], fails: &[u64]) -> Result<MemSource, NoMemory>
    ensures { IfOk result (λ source. IsDetached (mem_slots source)) }
{
    if stop.len() > LIST_LONGEST || alert.len() > LIST_LONGEST {
        return Err(NoMemory);
    }
    let mut source = MemSource::make(alloc);
    source.add("s", stop)?;
    source.add("a", alert)?;
    source.fail_calls(fails)?;
    Ok(source)
}

// The scan of an image by these words, with these lists.
fn scan_under(
    alloc: Global,
    words: &[&str],
    image: &[u8],
    lists: MemSource,
) -> Result<MemOutcome, NoMemory>
    requires { IsDetached (mem_slots lists) }
{
    let source = holding(alloc, image)?;
    let (disk, sink) = (MemDisk::make(alloc), MemSink::make(alloc));
    call_with(alloc, words, source, lists, disk, WordKit::make(0), sink)
}

// ---- options and classes

// How each feature file begins, and what follows its name.
const FRONT: &[u8] = b"# triage feature file, format 1\n# file: ";

const COLUMNS: &[u8] = b"\n# columns: path, feature, context\n";

// The file of this number has this name and these lines.
fn has_lines(disk: &MemDisk, file: u32, name: &str, lines: &str) -> bool {
    if file >= 64 {
        return false;
    }
    let Some(named) = disk.file(file).strip_prefix(FRONT) else {
        return false;
    };
    let Some(behind) = named.strip_prefix(name.as_bytes()) else {
        return false;
    };
    behind.strip_prefix(COLUMNS) == Some(lines.as_bytes())
}

// The scan is done, has put this text, and has left these files, each with its name and its lines.
fn leaves(outcome: &MemOutcome, text: &str, files: &[(u32, &str, &str)]) -> bool {
    outcome.status == Status::Done
        && outcome.out.bytes() == text.as_bytes()
        && files.iter().all(|(file, name, lines)| has_lines(&outcome.disk, *file, name, lines))
}

// A scan with options: the words, the image, the stop list, the alert list, the text, and the files.
type Row = (
    &'static [&'static str],
    &'static [u8],
    [&'static str; 2],
    &'static str,
    &'static [(u32, &'static str, &'static str)],
);

const SEE: &[u8] = b"see http://example.com/a b";

const URL_LINE: &str = "4\thttp://example.com/a\tsee http://example.com/a b\n";

const DOMAIN_LINE: &str = "11\texample.com\tsee http://example.com/a b\n";

// The hexadecimal digits of a Base64 text of a URL, each byte under the mask 255.
const MASKED: &[u8] =
    b"\xc9\xce\xcb\xc7\xca\xcd\xcc\xcf\xc9\xcc\xcb\xcb\xc9\x99\xc8\xc9\xcb\x9c\xcc\xcd\xca\xc9\xcc\xcb\xca\xc6\xca\xc8\xcc\xce\xc8\xc8\xc9\xcd\xcb\xc8\xca\xca\xc8\xca\xca\xc6\xcc\xcd\xcc\xc6\xc8\xcb\xcb\x9c\xcc\xcd\xc9\xc7\xc9\x9c\xc9\xcd\xcb\xc8\xc8\xc7\xc8\xc9\xcb\x9c\xca\xc7\xc9\xcb\xc8\xc9\xc9\xcc\xc9\x9b\xc8\xc7\xc9\x9d\xcb\x9c\xca\xcb\xcb\xca\xcc\x9b";

const ROWS: &[Row] = &[
    (
        &["scan", "--stop", "s", "--alert", "a", "i", "o"],
        SEE,
        ["example.com\tsee http://example.com/a b\n", "example.com\n"],
        "done pages=1 features=2\nurl.txt 1\ndomain.txt 1\nalerts.txt 1\n",
        &[
            (1, "url.txt", URL_LINE),
            (2, "domain.txt", DOMAIN_LINE),
            (9, "alerts.txt", DOMAIN_LINE),
            (12, "domain_stopped.txt", ""),
        ],
    ),
    (
        &["scan", "--stop", "s", "i", "o"],
        SEE,
        ["example.com\tsee http://example.com/a b", "example.com"],
        "done pages=1 features=2\nurl.txt 1\ndomain_stopped.txt 1\n",
        &[
            (2, "domain.txt", ""),
            (9, "alerts.txt", ""),
            (11, "url_stopped.txt", ""),
            (12, "domain_stopped.txt", DOMAIN_LINE),
        ],
    ),
    (
        &["scan", "--alert", "a", "--stop", "s", "i", "o"],
        SEE,
        ["example.com\tother", "# example.com\r\n\nexample.org\r\n"],
        "done pages=1 features=2\nurl.txt 1\ndomain.txt 1\n",
        &[
            (2, "domain.txt", DOMAIN_LINE),
            (9, "alerts.txt", ""),
            (12, "domain_stopped.txt", ""),
        ],
    ),
    (
        &["scan", "--stop", "s", "i", "o"],
        SEE,
        [
            "# triage feature file, format 1\n# file: url.txt\n4\thttp://example.com/a\tsee http://example.com/a b\n",
            "",
        ],
        "done pages=1 features=2\ndomain.txt 1\nurl_stopped.txt 1\n",
        &[(1, "url.txt", ""), (11, "url_stopped.txt", URL_LINE)],
    ),
    (
        &["scan", "-e", "word", "--context", "0", "i", "o"],
        b"  strawberry ",
        ["", ""],
        "done pages=1 features=1\nwordlist.txt 1\n",
        &[
            (8, "wordlist.txt", "2\tstrawberry\tstrawberry\n"),
            (18, "wordlist_stopped.txt", ""),
        ],
    ),
    (
        &["scan", "--xor", "255", "--depth", "3", "i", "o"],
        MASKED,
        ["", ""],
        "done pages=1 features=2\nurl.txt 1\ndomain.txt 1\n",
        &[
            (
                1,
                "url.txt",
                "0-XOR255-0-HEX-0-BASE64-0\thttp://example.com/hello-world-1\thttp://example.com/hello-world-1\n",
            ),
            (
                2,
                "domain.txt",
                "0-XOR255-0-HEX-0-BASE64-7\texample.com\thttp://example.com/hello-world-1\n",
            ),
        ],
    ),
    (
        &["scan", "--xor", "255", "--depth", "2", "i", "o"],
        MASKED,
        ["", ""],
        "done pages=1 features=0\n",
        &[],
    ),
    (
        &["scan", "--xor", "255", "i", "o"],
        SEE,
        ["", ""],
        "done pages=1 features=2\nurl.txt 1\ndomain.txt 1\n",
        &[(1, "url.txt", URL_LINE), (2, "domain.txt", DOMAIN_LINE)],
    ),
    (
        &["scan", "--page", "512", "-x", "url", "i", "o"],
        &[0; 1025],
        ["", ""],
        "done pages=3 features=0\n",
        &[(2, "domain.txt", "")],
    ),
];

// The row holds.
fn holds(alloc: Global, row: &Row) -> Result<bool, NoMemory> {
    let (words, image, [stop, alert], text, files) = *row;
    let lists = lists_of(alloc, stop.as_bytes(), alert.as_bytes(), &[])?;
    let outcome = scan_under(alloc, words, image, lists)?;
    Ok(leaves(&outcome, text, files))
}

#[test]
fn options_and_lists_say_what_stands_in_which_file(rt: HostRuntime) -> Result<(), Fail> {
    for row in ROWS {
        assert!(rt; holds(rt.alloc(), row)?, "not {}", row.3);
    }
    Ok(())
}

// Without scanners the alerts alone are written.
fn writes_alerts_alone(alloc: Global) -> Result<bool, NoMemory> {
    let words = [
        "scan", "-x", "url", "-x", "domain", "-x", "net", "-x", "exec", "-x", "unread", "-x",
        "find", "i", "o",
    ];
    let outcome = scan_under(alloc, &words, SEE, MemSource::make(alloc))?;
    Ok(
        ended(&outcome, Status::Done, &[ATTACH, READ_SEE], ALERTS_ALONE)
            && has_lines(&outcome.disk, 9, "alerts.txt", ""),
    )
}

const READ_SEE: SourceCall = SourceCall::Read {
    slot: 0,
    at: 0,
    bytes: 26,
};

const ALERTS_ALONE: &[DiskCall] = &[
    DiskCall::Mount,
    DiskCall::Cut { file: 9, to: 0 },
    DiskCall::Write {
        file: 9,
        at: 0,
        bytes: 85,
    },
    DiskCall::Sync { file: 9 },
];

#[test]
fn without_scanners_the_alerts_alone_are_written(rt: HostRuntime) -> Result<(), Fail> {
    assert!(rt; writes_alerts_alone(rt.alloc())?);
    Ok(())
}

// ---- refusals

// The scan ended so, with this line, after these calls of the lists and none of source and disk.
fn is_refused(outcome: &MemOutcome, status: Status, line: &str, calls: &[SourceCall]) -> bool {
    outcome.status == status
        && outcome.out.bytes() == line.as_bytes()
        && outcome.lists.calls() == calls
        && outcome.disk.calls().is_empty()
}

const STOP: SourceCall = SourceCall::Attach { slot: 0 };

const ALERT: SourceCall = SourceCall::Attach { slot: 1 };

const READ_STOP: SourceCall = SourceCall::Read {
    slot: 0,
    at: 0,
    bytes: 2,
};

const READ_ALERT: SourceCall = SourceCall::Read {
    slot: 1,
    at: 0,
    bytes: 3,
};

// The call of the lists that fails, what is said not to be read, the line, and the calls.
const FAULTS: &[(u64, ReadPlace, &str, &[SourceCall])] = &[
    (0, ReadPlace::StopList, "read fault: stop list\n", &[STOP]),
    (
        1,
        ReadPlace::StopList,
        "read fault: stop list\n",
        &[STOP, READ_STOP],
    ),
    (
        2,
        ReadPlace::AlertList,
        "read fault: alert list\n",
        &[STOP, READ_STOP, ALERT],
    ),
    (
        3,
        ReadPlace::AlertList,
        "read fault: alert list\n",
        &[STOP, READ_STOP, ALERT, READ_ALERT],
    ),
];

// The words of a scan with both lists.
const WORDS: &[&str] = &["scan", "--stop", "s", "--alert", "a", "i", "o"];

// A scan in which this call of the lists fails is refused so.
fn fails_at(
    alloc: Global,
    call: u64,
    place: ReadPlace,
    line: &str,
    calls: &[SourceCall],
) -> Result<bool, NoMemory> {
    let lists = lists_of(alloc, b"st", b"ale", &[call])?;
    let outcome = scan_under(alloc, WORDS, SEE, lists)?;
    Ok(is_refused(&outcome, Status::ReadFault { place }, line, calls))
}

#[test]
fn a_list_that_is_not_read_is_named(rt: HostRuntime) -> Result<(), Fail> {
    for (call, place, line, calls) in FAULTS {
        assert!(rt;
            fails_at(rt.alloc(), *call, *place, line, calls)?,
            "at {call}"
        );
    }
    Ok(())
}

// So many bytes.
fn bytes_of(alloc: Global, bytes: usize) -> Result<Vec<u8>, NoMemory> {
    let mut list = Vec::new(alloc);
    list.resize(bytes, b'x')?;
    Ok(list)
}

// A scan with a stop list and an alert list of so many bytes.
fn scan_long(
    alloc: Global,
    stop: usize,
    alert: usize,
    fails: &[u64],
) -> Result<MemOutcome, NoMemory> {
    let (stop, alert) = (bytes_of(alloc, stop)?, bytes_of(alloc, alert)?);
    let lists = lists_of(alloc, stop.as_slice(), alert.as_slice(), fails)?;
    scan_under(alloc, WORDS, SEE, lists)
}

// The list is refused for its size, after these calls of the lists.
fn is_too_long(outcome: &MemOutcome, list: List, line: &str, calls: &[SourceCall]) -> bool {
    let size = LIST_MOST + 1;
    is_refused(outcome, Status::ListTooLong { list, size }, line, calls)
}

#[test]
fn a_list_that_is_too_long_is_not_read(rt: HostRuntime) -> Result<(), Fail> {
    let most = LIST_MOST as usize;
    let stop = scan_long(rt.alloc(), most + 1, 2, &[1])?;
    assert!(rt; is_too_long(&stop, List::Stop, "list too long: stop 16777217\n", &[STOP]));
    let alert = scan_long(rt.alloc(), 2, most + 1, &[])?;
    let calls = [STOP, READ_STOP, ALERT];
    assert!(rt;
        is_too_long(
            &alert,
            List::Alert,
            "list too long: alert 16777217\n",
            &calls
        )
    );
    assert!(rt; scan_long(rt.alloc(), most, 2, &[])?.status == Status::Done);
    Ok(())
}
