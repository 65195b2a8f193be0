// Buffers within buffers. Their texts were written by `base64`, `xxd` and `iconv`.
ghost use Rattle.scan_set.specs.Lawful.{IsLawful};

use crate::{DEPTH_MOST, ScanPlan, Tools, scan_owned};
use byte_kit::{Names, NoMemory, Texts};
use forensic_path::Kind::{self, Domain, Url};
use forensic_path::{Feature, path_text};
use pattern_kit::WordMatcher;
use sbuf_nest::Sbuf;
use std::alloc::Global;
use std::test::Fail;

// The bits of the scanners of URLs and domains, of the one of words, and of the decoders.
pub(crate) const URLS: u16 = 3;

pub(crate) const WORD: u16 = 64;

pub(crate) const BASE64: u16 = 128;

pub(crate) const HEX: u16 = 256;

const UTF16: u16 = 512;

pub(crate) const DECODERS: u16 = 896;

// What a scan is asked for: the bits of the scanners and decoders, how many buffers deep it goes, the mask
// of the view, or 0, and how many bytes of context.
pub(crate) type Asked = (u16, u8, u8, u16);

// A feature by its kind, its path, and its text.
pub(crate) type Row = (Kind, &'static str, &'static str);

// What is asked, a buffer by how many blanks stand in front and what follows them, its features, and the
// contexts of those in front of them.
pub(crate) type Case = (
    Asked,
    usize,
    &'static [u8],
    &'static [Row],
    &'static [&'static str],
);

// Words have 6 to 40 bytes.
fn plan_of(alloc: Global, asked: Asked) -> ScanPlan
    ensures { IsLawful result }
{
    let (scanners, depth, mask, context) = asked;
    ScanPlan {
        scanners,
        depth: depth.min(DEPTH_MOST),
        mask,
        word_min: 6,
        word_max: 40,
        context,
        keywords: Texts::make(alloc),
        patterns: Names::make(alloc),
    }
}

pub(crate) fn make_tools(alloc: Global) -> Result<Tools<WordMatcher>, NoMemory> {
    Tools::make(alloc, &plan_of(alloc, (0, 0, 0, 0)), Vec::new(alloc))
}

// The features are these, in this order.
fn are(alloc: Global, features: &[Feature], want: &[Row]) -> Result<bool, NoMemory> {
    if features.len() != want.len() {
        return Ok(false);
    }
    for (found, row) in features.iter().zip(want.iter()) {
        let path = path_text(alloc, &found.path)?;
        if found.kind != row.0
            || path.as_slice() != row.1.as_bytes()
            || found.feature.as_slice() != row.2.as_bytes()
        {
            return Ok(false);
        }
    }
    Ok(true)
}

// These are the contexts of the features in front.
fn have(features: &[Feature], contexts: &[&str]) -> bool {
    features.iter().zip(contexts.iter()).all(|(found, context)| found.context.as_slice()
        == context.as_bytes())
}

// Each of two scans by the same tools makes these features.
pub(crate) fn makes(
    alloc: Global,
    tools: &mut Tools<WordMatcher>,
    sb: &Sbuf,
    asked: Asked,
    want: &[Row],
    contexts: &[&str],
) -> Result<bool, NoMemory> {
    let plan = plan_of(alloc, asked);
    let first = scan_owned(sb, &plan, tools)?;
    let second = scan_owned(sb, &plan, tools)?;
    Ok(
        are(alloc, first.as_slice(), want)?
            && are(alloc, second.as_slice(), want)?
            && have(second.as_slice(), contexts),
    )
}

// The number of the first case that fails. All are scanned by the same tools.
pub(crate) fn failing(alloc: Global, cases: &[Case]) -> Result<Option<usize>, NoMemory> {
    let mut tools = make_tools(alloc)?;
    for (number, case) in cases.iter().enumerate() {
        let (asked, ahead, text, want, contexts) = *case;
        let mut bytes = Vec::new(alloc);
        bytes.resize(ahead, b' ')?;
        bytes.extend_from_slice(text)?;
        let sb = Sbuf::child(bytes.as_slice());
        if !makes(alloc, &mut tools, &sb, asked, want, contexts)? {
            return Ok(Some(number));
        }
    }
    Ok(None)
}

// `http://example.com/hello-world-1`.
pub(crate) const HELLO: &[u8] = b"aHR0cDovL2V4YW1wbGUuY29tL2hlbGxvLXdvcmxkLTE=";

// `http://a.b/` in UTF-16LE.
pub(crate) const PAIRS: &[u8] = b"h\0t\0t\0p\0:\0/\0/\0a\0.\0b\0/\0";

// `http://abc.com/x`.
pub(crate) const DIGITS: &[u8] = b"687474703a2f2f6162632e636f6d2f78";

pub(crate) const ONE_DEEP: Asked = (URLS | DECODERS, 1, 0, 0);

const ENCODED: &[Case] = &[
    (
        (URLS | DECODERS, 7, 0, 16),
        100,
        HELLO,
        &[
            (Url, "100-BASE64-0", "http://example.com/hello-world-1"),
            (Domain, "100-BASE64-7", "example.com"),
        ],
        &[
            "http://example.com/hello-world-1",
            "http://example.com/hello-world-1",
        ],
    ),
    (
        ONE_DEEP,
        0,
        b"aHR0cDovL2V4YW1wbGUuY29tL2hlbGxv\r\nLXdvcmxkLTE=",
        &[
            (Url, "0-BASE64-0", "http://example.com/hello-world-1"),
            (Domain, "0-BASE64-7", "example.com"),
        ],
        &[],
    ),
    (ONE_DEEP, 0, b"aHR0cDovL2V4YW1wbGUuY29tL2hlbGx", &[], &[]),
    (
        ONE_DEEP,
        1,
        DIGITS,
        &[
            (Url, "1-HEX-0", "http://abc.com/x"),
            (Domain, "1-HEX-7", "abc.com"),
        ],
        &[],
    ),
    (
        ONE_DEEP,
        2,
        PAIRS,
        &[
            (Url, "2-UTF16-0", "http://a.b/"),
            (Domain, "2-UTF16-7", "a.b"),
        ],
        &[],
    ),
    (
        ONE_DEEP,
        1,
        PAIRS,
        &[
            (Url, "1-UTF16-0", "http://a.b/"),
            (Domain, "1-UTF16-7", "a.b"),
        ],
        &[],
    ),
    (
        ONE_DEEP,
        0,
        b"h\0t\0t\0p\0:\0/\0/\0a\0",
        &[(Url, "0-UTF16-0", "http://a")],
        &[],
    ),
    (ONE_DEEP, 0, b"f\0t\0p\0:\0/\0/\0a\0", &[], &[]),
    (
        ONE_DEEP,
        0,
        b"x\0h\0t\0t\0p\0:\0/\0/\0a\0",
        &[(Url, "0-UTF16-1", "http://a")],
        &[],
    ),
    (
        ONE_DEEP,
        0,
        b"\0h\0t\0t\0p\0:\0/\0/\0a\0",
        &[(Url, "1-UTF16-0", "http://a")],
        &[],
    ),
    (
        ONE_DEEP,
        0,
        b"xh\0t\0t\0p\0:\0/\0/\0a\0",
        &[(Url, "1-UTF16-0", "http://a")],
        &[],
    ),
    (
        (URLS | DECODERS, 2, 0, 0),
        0,
        b"aAB0AHQAcAA6AC8ALwBhAGIAYwAuAGQAZQAvAA==",
        &[
            (Url, "0-BASE64-0-UTF16-0", "http://abc.de/"),
            (Domain, "0-BASE64-0-UTF16-7", "abc.de"),
        ],
        &[],
    ),
    (
        ONE_DEEP,
        0,
        b"aAB0AHQAcAA6AC8ALwBhAGIAYwAuAGQAZQAvAA==",
        &[],
        &[],
    ),
    ((URLS | DECODERS, 0, 0, 0), 0, HELLO, &[], &[]),
    ((URLS | DECODERS, 0, 255, 0), 0, PAIRS, &[], &[]),
    ((URLS | HEX | UTF16, 1, 0, 0), 0, HELLO, &[], &[]),
    ((URLS | BASE64 | UTF16, 1, 0, 0), 0, DIGITS, &[], &[]),
    ((URLS | BASE64 | HEX, 1, 0, 0), 0, PAIRS, &[], &[]),
    (
        (URLS | DECODERS, 1, 0, 16),
        11,
        b"c2VlIGh0dHA6Ly9hLmIvYyBpbiBtYWlscw== 0123456789",
        &[
            (Url, "11-BASE64-4", "http://a.b/c"),
            (Domain, "11-BASE64-11", "a.b"),
        ],
        &["see http://a.b/c in mails", "see http://a.b/c in mails"],
    ),
    (
        (URLS | DECODERS, 1, 0, 3),
        11,
        b"c2VlIGh0dHA6Ly9hLmIvYyBpbiBtYWlscw== 0123456789",
        &[
            (Url, "11-BASE64-4", "http://a.b/c"),
            (Domain, "11-BASE64-11", "a.b"),
        ],
        &["ee http://a.b/c in", "://a.b/c "],
    ),
];

#[test]
fn a_text_is_searched_by_what_it_says(rt: HostRuntime) -> Result<(), Fail> {
    assert_eq!(rt; failing(rt.alloc(), ENCODED)?, None);
    Ok(())
}
