// Images in parts, and read in pages.
ghost use Rattle.std.specs.Prelude.{IfOk};
ghost use Rattle.host_source.specs.Source.{IsDetached};
ghost use Rattle.host_source.specs.MemSource.{mem_slots};

use super::calls::ATTACH;
use super::reports::holds;
use super::{MemOutcome, call, holding};
use crate::{ReadPlace, Status};
use byte_kit::NoMemory;
use host_disk::{DiskCall, MemDisk};
use host_source::{MemSink, MemSource, SourceCall};
use image_gen::image_of_seed;
use std::alloc::Global;
use std::test::Fail;

const ATTACH_NEXT: SourceCall = SourceCall::Attach { slot: 1 };

// A text in two parts, and their reads.
const FRONT: &str = "see http:/";

const BACK: &str = "/example.com/a b";

const READ_FRONT: SourceCall = SourceCall::Read {
    slot: 0,
    at: 0,
    bytes: 10,
};

const READ_BACK: SourceCall = SourceCall::Read {
    slot: 1,
    at: 0,
    bytes: 16,
};

// What a source holds.
#[derive(Drop)]
enum Held {
    // The text in the parts `a` and `b`.
    Text,
    // Three pages of 512 zero bytes in `z`, and one byte more than as many such pages as are scanned in `h`.
    Zeros,
}

// A source that holds this, and in which these calls fail.
fn source_of(alloc: Global, held: &Held, fails: &[u64]) -> Result<MemSource, NoMemory>
    ensures { IfOk result (λ source. IsDetached (mem_slots source)) }
{
    let mut source = MemSource::make(alloc);
    match held {
        Held::Text => {
            source.add("a", FRONT.as_bytes())?;
            source.add("b", BACK.as_bytes())?;
        }
        Held::Zeros => {
            source.add_filled("z", 1536, 0)?;
            source.add_filled("h", 536_870_913, 0)?;
        }
    }
    source.fail_calls(fails)?;
    Ok(source)
}

// What the source holds, the words, the calls that fail, and how the scan ends: its status, its text, the calls of the
// source, and what is on the disk.
#[derive(Drop)]
struct Row {
    held: Held,
    words: &'static [&'static str],
    fails: &'static [u64],
    status: Status,
    text: &'static str,
    read: &'static [SourceCall],
    left: Left,
}

// What is on the disk.
#[derive(Drop)]
enum Left {
    Lines(&'static str, &'static str),
    Mounted,
    Nothing,
}

const URLS: &str = "4\thttp://example.com/a\tsee http://example.com/a b\n";

const DOMAINS: &str = "11\texample.com\tsee http://example.com/a b\n";

const FOUND: &str = "done pages=1 features=2\nurl.txt 1\ndomain.txt 1\n";

const ROWS: &[Row] = &[
    Row {
        held: Held::Text,
        words: &["scan", "a", "b", "o"],
        fails: &[],
        status: Status::Done,
        text: FOUND,
        read: &[ATTACH, ATTACH_NEXT, READ_FRONT, READ_BACK],
        left: Left::Lines(URLS, DOMAINS),
    },
    Row {
        held: Held::Text,
        words: &["scan", "b", "a", "o"],
        fails: &[],
        status: Status::Done,
        text: "done pages=1 features=0\n",
        read: &[
            ATTACH,
            ATTACH_NEXT,
            SourceCall::Read {
                slot: 0,
                at: 0,
                bytes: 16,
            },
            SourceCall::Read {
                slot: 1,
                at: 0,
                bytes: 10,
            },
        ],
        left: Left::Lines("", ""),
    },
    // The same part twice.
    Row {
        held: Held::Text,
        words: &["scan", "b", "b", "o"],
        fails: &[],
        status: Status::Done,
        text: "done pages=1 features=0\n",
        read: &[
            ATTACH,
            ATTACH_NEXT,
            SourceCall::Read {
                slot: 0,
                at: 0,
                bytes: 16,
            },
            READ_BACK,
        ],
        left: Left::Lines("", ""),
    },
    // A part that isn't there, and one that fails to be attached.
    Row {
        held: Held::Text,
        words: &["scan", "a", "c", "o"],
        fails: &[],
        status: Status::ReadFault {
            place: ReadPlace::Image,
        },
        text: "read fault: image\n",
        read: &[ATTACH, ATTACH_NEXT],
        left: Left::Nothing,
    },
    Row {
        held: Held::Text,
        words: &["scan", "a", "b", "o"],
        fails: &[0],
        status: Status::ReadFault {
            place: ReadPlace::Image,
        },
        text: "read fault: image\n",
        read: &[ATTACH],
        left: Left::Nothing,
    },
    // A part that is cut short while it is read.
    Row {
        held: Held::Text,
        words: &["scan", "a", "b", "o"],
        fails: &[3],
        status: Status::ReadFault {
            place: ReadPlace::Page(0),
        },
        text: "read fault: page 0\n",
        read: &[ATTACH, ATTACH_NEXT, READ_FRONT, READ_BACK],
        left: Left::Mounted,
    },
    // Each page reads its own window: 128 bytes ahead of it, and what is behind it.
    Row {
        held: Held::Zeros,
        words: &["scan", "--page", "512", "--workers", "1", "z", "o"],
        fails: &[],
        status: Status::Done,
        text: "done pages=3 features=0\n",
        read: &[
            ATTACH,
            SourceCall::Read {
                slot: 0,
                at: 0,
                bytes: 1536,
            },
            SourceCall::Read {
                slot: 0,
                at: 384,
                bytes: 1152,
            },
            SourceCall::Read {
                slot: 0,
                at: 896,
                bytes: 640,
            },
        ],
        left: Left::Lines("", ""),
    },
    Row {
        held: Held::Zeros,
        words: &["scan", "--page", "512", "--workers", "1", "z", "o"],
        fails: &[2],
        status: Status::ReadFault {
            place: ReadPlace::Page(1),
        },
        text: "read fault: page 1\n",
        read: &[
            ATTACH,
            SourceCall::Read {
                slot: 0,
                at: 0,
                bytes: 1536,
            },
            SourceCall::Read {
                slot: 0,
                at: 384,
                bytes: 1152,
            },
        ],
        left: Left::Mounted,
    },
    Row {
        held: Held::Zeros,
        words: &["scan", "--page", "512", "h", "o"],
        fails: &[],
        status: Status::TooManyPages { pages: 1_048_577 },
        text: "too many pages: 1048577\n",
        read: &[ATTACH],
        left: Left::Nothing,
    },
];

// The disk holds this, and nothing else was asked of it.
fn is_left(disk: &MemDisk, left: &Left) -> bool {
    match left {
        Left::Lines(urls, domains) => holds(disk, urls, domains),
        Left::Mounted => disk.calls() == [DiskCall::Mount].as_slice(),
        Left::Nothing => disk.calls().is_empty(),
    }
}

// The scan ends as the row says.
fn ends_so(alloc: Global, row: &Row) -> Result<bool, NoMemory> {
    let (source, disk) = (
        source_of(alloc, &row.held, row.fails)?,
        MemDisk::make(alloc),
    );
    let outcome = call(alloc, row.words, source, disk, MemSink::make(alloc))?;
    Ok(
        outcome.status == row.status
            && outcome.out.bytes() == row.text.as_bytes()
            && outcome.sources.len() == 1
            && outcome.sources[0].calls() == row.read
            && is_left(&outcome.disk, &row.left),
    )
}

#[test]
fn parts_are_one_image_that_is_read_page_by_page(rt: HostRuntime) -> Result<(), Fail> {
    for row in ROWS {
        assert!(rt; ends_so(rt.alloc(), row)?, "not {}", row.text);
    }
    Ok(())
}

// The scan of an image in pages of so many bytes.
fn scan_in_pages(alloc: Global, image: &[u8], page: &str) -> Result<MemOutcome, NoMemory> {
    let words = ["scan", "--page", page, "i", "o"];
    let (source, disk) = (holding(alloc, image)?, MemDisk::make(alloc));
    call(alloc, words.as_slice(), source, disk, MemSink::make(alloc))
}

// The disks hold the same.
fn are_alike(one: &MemDisk, other: &MemDisk) -> bool {
    for file in 0..64 {
        if one.file(file) != other.file(file) {
            return false;
        }
    }
    true
}

// Sizes of a page, and how many pages 65,536 bytes then have.
const PAGES: &[(&str, &str)] = &[
    ("512", "done pages=128 features=28\n"),
    ("513", "done pages=128 features=28\n"),
    ("4096", "done pages=16 features=28\n"),
    ("16777216", "done pages=1 features=28\n"),
];

// An image that is made leaves the same in pages of each size.
fn leaves_the_same(alloc: Global) -> Result<bool, NoMemory> {
    let image = image_of_seed(alloc, 7, 65536)?;
    let whole = scan_in_pages(alloc, image.as_slice(), "16777216")?;
    for (page, front) in PAGES {
        let scan = scan_in_pages(alloc, image.as_slice(), page)?;
        if !scan.out.bytes().starts_with(front.as_bytes()) || !are_alike(&scan.disk, &whole.disk) {
            return Ok(false);
        }
    }
    Ok(true)
}

#[test]
fn a_report_is_the_same_in_pages_of_each_size(rt: HostRuntime) -> Result<(), Fail> {
    assert!(rt; leaves_the_same(rt.alloc())?);
    Ok(())
}
