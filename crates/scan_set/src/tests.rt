ghost use Rattle.std.specs.Prelude.{IfOk};
ghost use Rattle.scan_set.specs.Lawful.{IsLawful};

use crate::{ScanPlan, Tools, scan_owned};
use byte_kit::{Bytes, Names, NoMemory, Texts};
use forensic_path::Feature;
use forensic_path::Kind::{self, Domain, Ether, Exec, Find, Ip, Unread, Url, Word};
use pattern_kit::{Kit, WordKit, WordMatcher};
use sbuf_nest::Sbuf;
use scan_find::{PATTERNS_MOST, TEXT_MOST};
use std::alloc::Global;
use std::test::Fail;

// The bits of the scanners, and of all scanners and decoders.
pub(crate) const URL: u16 = 1;

pub(crate) const DOMAIN: u16 = 2;

const NET: u16 = 4;

const EXEC: u16 = 8;

const UNREAD: u16 = 16;

pub(crate) const FIND: u16 = 32;

const WORD: u16 = 64;

const ALL: u16 = 1023;

// What a scan of the buffer alone is asked for: the bits of the scanners, how many bytes of context, a
// keyword, or none where it is empty, and patterns.
pub(crate) type Asked = (u16, u16, &'static [u8], &'static [&'static str]);

// A feature by its kind, how far behind some place it stands, and its text.
pub(crate) type Row = (Kind, u64, &'static str);

// A buffer, which of its places are owned, what is asked, its features, and the contexts of those in
// front of them.
pub(crate) type Case = (
    &'static [u8],
    (usize, usize),
    Asked,
    &'static [Row],
    &'static [&'static str],
);

fn plan_of(alloc: Global, asked: Asked) -> Result<ScanPlan, NoMemory>
    ensures { IfOk result (λ plan. IsLawful plan) }
{
    let (scanners, context, keyword, _) = asked;
    let mut keywords = Texts::make(alloc);
    if !keyword.is_empty() && keyword.len() <= TEXT_MOST {
        keywords.add(Bytes::copy(alloc, keyword)?)?;
    }
    Ok(ScanPlan {
        scanners,
        depth: 0,
        mask: 0,
        word_min: 6,
        word_max: 14,
        context,
        keywords,
        patterns: Names::make(alloc),
    })
}

fn matchers_of(alloc: Global, patterns: &[&str]) -> Result<Vec<WordMatcher>, NoMemory> {
    let mut kit = WordKit::make(0);
    let mut matchers = Vec::new(alloc);
    for pattern in patterns {
        match kit.build(alloc, 0, pattern) {
            Ok(matcher) => matchers.push(matcher)?,
            Err(_) => return Err(NoMemory),
        }
    }
    Ok(matchers)
}

// The features of the second of two scans by the same tools.
fn scanned(alloc: Global, sb: &Sbuf, asked: Asked) -> Result<Vec<Feature>, NoMemory> {
    let plan = plan_of(alloc, asked)?;
    let matchers = matchers_of(alloc, asked.3)?;
    if matchers.len() > PATTERNS_MOST {
        return Ok(Vec::new(alloc));
    }
    let mut tools = Tools::make(alloc, &plan, matchers)?;
    scan_owned(sb, &plan, &mut tools)?;
    scan_owned(sb, &plan, &mut tools)
}

// The features are these, in this order, each at a path of one place.
fn are(features: &[Feature], place: u64, want: &[Row]) -> bool {
    features.len() == want.len()
        && features.iter().zip(want.iter()).all(|(found, row)| {
            found.kind == row.0
                && found.path.top.wrapping_sub(place) == row.1
                && found.path.steps.items().is_empty()
                && found.feature.as_slice() == row.2.as_bytes()
        })
}

// These are the contexts of the features in front.
fn have(features: &[Feature], contexts: &[&str]) -> bool {
    features.iter().zip(contexts.iter()).all(|(found, context)| found.context.as_slice()
        == context.as_bytes())
}

// The number of the first case that fails.
pub(crate) fn failing(alloc: Global, cases: &[Case]) -> Result<Option<usize>, NoMemory> {
    for (number, case) in cases.iter().enumerate() {
        let (bytes, (from, to), asked, rows, contexts) = *case;
        if from > to || to > bytes.len() || bytes.len() > 1024 {
            return Ok(Some(number));
        }
        let features = scanned(alloc, &Sbuf::of(bytes, from, to, 1000), asked)?;
        if !are(features.as_slice(), 1000, rows) || !have(features.as_slice(), contexts) {
            return Ok(Some(number));
        }
    }
    Ok(None)
}

// The features of a text that stands between blanks, so many of them ahead of it, and so many bytes in
// all, are these.
fn are_between_blanks(
    alloc: Global,
    text: &[u8],
    ahead: usize,
    length: usize,
    asked: Asked,
    rows: &[Row],
) -> Result<bool, NoMemory> {
    let mut bytes = Vec::new(alloc);
    bytes.resize(ahead, b' ')?;
    bytes.extend_from_slice(text)?;
    bytes.resize(length, b' ')?;
    let features = scanned(alloc, &Sbuf::child(bytes.as_slice()), asked)?;
    Ok(are(features.as_slice(), ahead as u64, rows))
}

// An IPv4 header of 192.168.0.1 to 192.168.0.199.
const PACKET: &[u8] = b"\x45\0\0\x73\0\0\x40\0\x40\x11\xb8\x61\xc0\xa8\0\x01\xc0\xa8\0\xc7";

// An ELF header.
const ELF: &[u8] = b"\x7fELF\x02\x01\x01\0\0\0\0\0\0\0\0\0\x02\0\x3e\0";

const ACROSS: &[(&[u8], Asked, &[Row])] = &[
    (
        b"http://a.b/ ",
        (URL | DOMAIN, 16, b"", &[]),
        &[(Url, 0, "http://a.b/"), (Domain, 7, "a.b")],
    ),
    (
        PACKET,
        (NET, 16, b"", &[]),
        &[(Ip, 0, "192.168.0.1"), (Ip, 0, "192.168.0.199")],
    ),
    (
        ELF,
        (EXEC, 16, b"", &[]),
        &[(Exec, 0, "ELF class=64 order=little type=2 machine=62")],
    ),
    (
        b"\x1f\x8b\x08PK\x03\x04",
        (UNREAD, 16, b"", &[]),
        &[(Unread, 0, "gzip"), (Unread, 3, "zip")],
    ),
    (
        b"a needle",
        (FIND, 16, b"a needle", &["needle"]),
        &[(Find, 0, "a needle"), (Find, 2, "needle")],
    ),
    (
        b"strawberry",
        (WORD, 16, b"", &[]),
        &[(Word, 0, "strawberry")],
    ),
];

#[test]
fn what_lies_across_a_border_of_blocks_is_found_once(rt: HostRuntime) -> Result<(), Fail> {
    for &(text, asked, want) in ACROSS {
        for ahead in [65516, 65526, 65533, 65534, 65535, 65536, 65537] {
            assert!(rt;
                are_between_blanks(rt.alloc(), text, ahead, 65600, asked, want)?,
                "at {ahead}"
            );
        }
    }
    Ok(())
}

const WORDS_ALONE: Asked = (WORD, 0, b"", &[]);

const BERRY: [Row; 1] = [(Word, 0, "strawberry")];

#[test]
fn a_word_between_blanks_is_found_where_it_begins(rt: HostRuntime) -> Result<(), Fail> {
    let found = are_between_blanks(rt.alloc(), b"strawberry", 508, 1024, WORDS_ALONE, &BERRY)?;
    assert!(rt; found);
    Ok(())
}

// An Ethernet header with the bytes of some other shape as its addresses, and an IPv4 header behind it.
const MIXED: &[u8] =
    b"http://a.b/c\x08\0\x45\0\0\x73\0\0\x40\0\x40\x11\xb8\x61\xc0\xa8\0\x01\xc0\xa8\0\xc7";

const ELF_MIXED: &[u8] =
    b"\x7fELF\x02\x01\x01\0\0\0\0\0\x08\0\x45\0\0\x73\0\0\x40\0\x40\x11\xb8\x61\xc0\xa8\0\x01\xc0\xa8\0\xc7";

const GZIP_MIXED: &[u8] =
    b"\x1f\x8b\x08\0\0\0\0\0\0\0\0\0\x08\0\x45\0\0\x73\0\0\x40\0\x40\x11\xb8\x61\xc0\xa8\0\x01\xc0\xa8\0\xc7";

const IP_MIXED: &[u8] =
    b"\x45\0\0\x14\0\0\0\0\x40\x11\x2d\x67\x08\0\x45\0\0\x73\0\0\x40\0\x40\x11\xb8\x61\xc0\xa8\0\x01\xc0\xa8\0\xc7";

const ORDERED: &[Case] = &[
    (
        MIXED,
        (0, 34),
        (ALL, 0, b"http", &["http:"]),
        &[
            (Url, 0, "http://a.b/c"),
            (Ether, 0, "68:74:74:70:3a:2f"),
            (Ether, 0, "2f:61:2e:62:2f:63"),
            (Find, 0, "http"),
            (Find, 0, "http:"),
            (Word, 0, "http://a.b/c"),
            (Domain, 7, "a.b"),
            (Ip, 14, "192.168.0.1"),
            (Ip, 14, "192.168.0.199"),
        ],
        &["http://a.b/c"],
    ),
    (
        MIXED,
        (0, 34),
        (URL, 0, b"http", &["http:"]),
        &[(Url, 0, "http://a.b/c")],
        &[],
    ),
    (
        MIXED,
        (0, 34),
        (DOMAIN, 0, b"http", &["http:"]),
        &[(Domain, 7, "a.b")],
        &[],
    ),
    (
        MIXED,
        (0, 34),
        (FIND, 0, b"http", &["http:"]),
        &[(Find, 0, "http"), (Find, 0, "http:")],
        &[],
    ),
    (
        MIXED,
        (0, 34),
        (WORD, 0, b"http", &["http:"]),
        &[(Word, 0, "http://a.b/c")],
        &[],
    ),
    (
        MIXED,
        (0, 34),
        (EXEC | UNREAD, 0, b"http", &["http:"]),
        &[],
        &[],
    ),
    (
        ELF_MIXED,
        (0, 34),
        (NET | EXEC | FIND, 0, b"\x7fELF", &[]),
        &[
            (Ether, 0, "7f:45:4c:46:02:01"),
            (Ether, 0, "01:00:00:00:00:00"),
            (Exec, 0, "ELF class=64 order=little type=29440 machine=0"),
            (Find, 0, "\x7fELF"),
            (Ip, 14, "192.168.0.1"),
            (Ip, 14, "192.168.0.199"),
        ],
        &[],
    ),
    (
        GZIP_MIXED,
        (0, 34),
        (NET | UNREAD, 0, b"", &[]),
        &[
            (Ether, 0, "1f:8b:08:00:00:00"),
            (Ether, 0, "00:00:00:00:00:00"),
            (Unread, 0, "gzip"),
            (Ip, 14, "192.168.0.1"),
            (Ip, 14, "192.168.0.199"),
        ],
        &[],
    ),
    (
        IP_MIXED,
        (0, 34),
        (NET, 0, b"", &[]),
        &[
            (Ip, 0, "8.0.69.0"),
            (Ip, 0, "0.115.0.0"),
            (Ether, 0, "45:00:00:14:00:00"),
            (Ether, 0, "00:00:40:11:2d:67"),
            (Ip, 14, "192.168.0.1"),
            (Ip, 14, "192.168.0.199"),
        ],
        &[],
    ),
    (IP_MIXED, (0, 34), (0, 0, b"E", &["E"]), &[], &[]),
];

#[test]
fn a_place_has_the_features_of_the_scanners_that_are_on_in_the_order_of_kinds(
    rt: HostRuntime,
) -> Result<(), Fail> {
    assert_eq!(rt; failing(rt.alloc(), ORDERED)?, None);
    Ok(())
}

const OWNED: &[Case] = &[
    (
        b"http://a.b/?u=http://c.d/",
        (0, 25),
        (URL | DOMAIN, 0, b"", &[]),
        &[
            (Url, 0, "http://a.b/?u=http://c.d/"),
            (Domain, 7, "a.b"),
            (Url, 14, "http://c.d/"),
            (Domain, 21, "c.d"),
        ],
        &[],
    ),
    (
        b"http://a.b/?u=http://c.d/",
        (1, 21),
        (URL | DOMAIN, 0, b"", &[]),
        &[(Domain, 7, "a.b"), (Url, 14, "http://c.d/")],
        &[],
    ),
    (
        b"http://a.b/?u=http://c.d/",
        (7, 8),
        (URL | DOMAIN, 0, b"", &[]),
        &[(Domain, 7, "a.b")],
        &[],
    ),
    (
        b"http://a.b/?u=http://c.d/",
        (8, 14),
        (URL | DOMAIN, 0, b"", &[]),
        &[],
        &[],
    ),
    (
        b"http://a.b/?u=http://c.d/",
        (7, 7),
        (ALL, 0, b"a", &["a"]),
        &[],
        &[],
    ),
    (b"a strawberry", (4, 12), (WORD, 0, b"", &[]), &[], &[]),
];

#[test]
fn only_the_owned_places_have_features(rt: HostRuntime) -> Result<(), Fail> {
    assert_eq!(rt; failing(rt.alloc(), OWNED)?, None);
    Ok(())
}
