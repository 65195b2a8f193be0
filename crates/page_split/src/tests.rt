ghost use Rattle.std.specs.Prelude.{◌≤◌, IfOk};
ghost use Rattle.scan_set.specs.Lawful.{IsLawful};

use crate::{MARGIN_LEAST, PAGE_LEAST, PAGE_MOST, PageFault, Pages, Window, page_features};
use byte_kit::{Name, Names, NoMemory, Texts};
use forensic_path::Feature;
use forensic_path::Kind::{self, Domain, Url, Word};
use host_source::MemSource;
use image_source::Parts;
use pattern_kit::WordMatcher;
use scan_set::{ScanPlan, Tools};
use std::alloc::Global;
use std::process::Abort;
use std::test::Fail;

// The size of an image, that of a page, and how many pages there are.
const COUNTS: &[(u64, u64, u64)] = &[
    (0, 512, 0),
    (1, 512, 1),
    (512, 512, 1),
    (513, 512, 2),
    (1024, 512, 2),
    (65536, 512, 128),
    (65536, 4096, 16),
    (536870912, 512, 1048576),
    (536870913, 512, 1048577),
    (9223372036854775807, 16777216, 549755813888),
];

#[test]
fn the_last_page_has_what_is_left(rt: HostRuntime) -> Result<(), Fail> {
    for (size, page, count) in COUNTS {
        assert!(rt; *size < 1 << 63 && PAGE_LEAST <= *page && *page <= PAGE_MOST);
        assert_eq!(rt; Pages::make(*size, *page, MARGIN_LEAST).count(), *count);
    }
    Ok(())
}

// The number of a page of 512 bytes of an image of 1,000,000 bytes, and its window with the least margin.
const WINDOWS: &[(u64, Window)] = &[
    (
        0,
        Window {
            from: 0,
            own_from: 0,
            own_to: 512,
            to: 131584,
        },
    ),
    (
        1,
        Window {
            from: 384,
            own_from: 512,
            own_to: 1024,
            to: 132096,
        },
    ),
    (
        1953,
        Window {
            from: 999808,
            own_from: 999936,
            own_to: 1000000,
            to: 1000000,
        },
    ),
];

// The window of a page is this one, and the page's own places are its.
fn has_window(rt: &impl Abort, pages: &Pages, page: u64, window: &Window) -> bool {
    assert!(rt; page < pages.count());
    pages.window(page) == *window && pages.own(page) == (window.own_from, window.own_to)
}

#[test]
fn a_window_reaches_into_the_margins(rt: HostRuntime) -> Result<(), Fail> {
    let pages = Pages::make(1000000, 512, 131072);
    for (page, window) in WINDOWS {
        assert!(rt; has_window(&rt, &pages, *page, window), "of page {page}");
    }
    Ok(())
}

// A scan for these scanners, into buffers one level deep.
fn plan_of(alloc: Global, scanners: u16) -> ScanPlan
    ensures { IsLawful result }
{
    ScanPlan {
        scanners,
        depth: 1,
        mask: 0,
        word_min: 6,
        word_max: 14,
        context: 16,
        keywords: Texts::make(alloc),
        patterns: Names::make(alloc),
    }
}

// An image of two parts, so many bytes in all that are blanks but for a text at a place; the border of the
// parts lies within the text.
fn image_of(
    rt: &impl Abort,
    alloc: Global,
    size: usize,
    at: usize,
    text: &[u8],
    failing: &[u64],
) -> Result<Parts<MemSource>, Fail> {
    let mut bytes = vec![in alloc; b' '; at]?;
    bytes.extend_from_slice(text)?;
    bytes.resize(size, b' ')?;
    assert!(rt; at < 1 << 30 && size < 1 << 30 && at < size);
    let (front, back) = bytes.as_slice().split_at(at + 1);
    let mut source = MemSource::make(alloc);
    source.add("a", front)?;
    source.add("b", back)?;
    source.fail_calls(failing)?;
    let names = vec![in alloc; Name::copy(alloc, "a")?, Name::copy(alloc, "b")?]?;
    match Parts::attach(alloc, source, names.as_slice()) {
        Ok(parts) => Ok(parts),
        Err((_, fault)) => Err(fault.into()),
    }
}

// The features of a page, where there is one of this number.
fn found(
    rt: &impl Abort,
    alloc: Global,
    image: &mut Parts<MemSource>,
    page_bytes: u64,
    page: u64,
    scanners: u16,
) -> Result<Result<Vec<Feature>, PageFault>, Fail> {
    assert!(rt; PAGE_LEAST <= page_bytes && page_bytes <= PAGE_MOST);
    let pages = Pages::make(image.size(), page_bytes, MARGIN_LEAST);
    assert!(rt; page < pages.count());
    let plan = plan_of(alloc, scanners);
    let matchers: Vec<WordMatcher> = Vec::new(alloc);
    let mut tools = Tools::make(alloc, &plan, matchers)?;
    Ok(page_features(alloc, image, &pages, page, &plan, &mut tools))
}

// A feature by its kind, its first place, how many steps its path has, and its text.
type Row = (Kind, u64, usize, &'static str);

// The features are these, in this order.
fn are(features: &[Feature], want: &[Row]) -> bool {
    features.len() == want.len()
        && features.iter().zip(want).all(|(found, row)| {
            found.kind == row.0
                && found.path.top == row.1
                && found.path.steps.items().len() == row.2
                && found.feature.as_slice() == row.3.as_bytes()
        })
}

// The size of an image, a text at a place of it, the scanners, the size of a page, its number, and the features
// that begin in it.
type Case = (usize, usize, &'static [u8], u16, u64, u64, &'static [Row]);

const URLS: u16 = 3;

const WORDS: u16 = 64;

const BASE64: u16 = 131;

const HELLO: &[u8] = b"aHR0cDovL2V4YW1wbGUuY29tL2hlbGxvLXdvcmxkLTE=";

const PAGES: &[Case] = &[
    // The URL begins in the first page, and its domain in the second.
    (
        1024,
        511,
        b"http://example.com/x",
        URLS,
        512,
        0,
        &[(Url, 511, 0, "http://example.com/x")],
    ),
    (
        1024,
        511,
        b"http://example.com/x",
        URLS,
        512,
        1,
        &[(Domain, 518, 0, "example.com")],
    ),
    // A word is whole in the page where it begins, and its rest is no word of the next one.
    (
        1024,
        508,
        b"strawberry",
        WORDS,
        512,
        0,
        &[(Word, 508, 0, "strawberry")],
    ),
    (1024, 508, b"strawberry", WORDS, 512, 1, &[]),
    // A text that begins in a page is decoded there, and no rest of it in the next one.
    (
        1100,
        1020,
        HELLO,
        BASE64,
        512,
        1,
        &[
            (Url, 1020, 1, "http://example.com/hello-world-1"),
            (Domain, 1020, 1, "example.com"),
        ],
    ),
    (1100, 1020, HELLO, BASE64, 512, 2, &[]),
    // The border of two pieces of a page lies within the URL.
    (
        600000,
        262143,
        b"http://example.com/x",
        URLS,
        16777216,
        0,
        &[
            (Url, 262143, 0, "http://example.com/x"),
            (Domain, 262150, 0, "example.com"),
        ],
    ),
];

#[test]
fn a_feature_is_of_the_page_where_it_begins(rt: HostRuntime) -> Result<(), Fail> {
    for (size, at, text, scanners, page_bytes, page, rows) in PAGES {
        let mut image = image_of(&rt, rt.alloc(), *size, *at, text, &[])?;
        let features = found(&rt, rt.alloc(), &mut image, *page_bytes, *page, *scanners)??;
        assert!(rt; are(features.as_slice(), rows), "at {at} in page {page}");
    }
    Ok(())
}

#[test]
fn a_page_that_was_not_read_can_be_read_again(rt: HostRuntime) -> Result<(), Fail> {
    for failing in 2..4 {
        let mut image = image_of(&rt, rt.alloc(), 1024, 511, b"http://a.b/", &[failing])?;
        let refused = found(&rt, rt.alloc(), &mut image, 512, 0, URLS)?;
        assert!(rt; matches!(refused, Err(PageFault::Read)));
        let features = found(&rt, rt.alloc(), &mut image, 512, 0, URLS)??;
        assert!(rt; are(features.as_slice(), &[(Url, 511, 0, "http://a.b/")]));
    }
    Ok(())
}
