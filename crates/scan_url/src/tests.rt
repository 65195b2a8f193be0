use crate::{domain_len, find_urls, url_len};
use byte_kit::NoMemory;
use forensic_path::Kind::{self, Domain, Url};
use sbuf_nest::{Found, Look, Mark, Sbuf};
use std::alloc::Global;
use std::test::Fail;

// The bytes of a URL at the text's first place.
fn url_of(text: &[u8]) -> Option<u32> {
    url_len(&Look {
        before: b"",
        after: text,
    })
}

// The bytes of a domain between the two texts.
fn domain_of(before: &str, after: &[u8]) -> Option<u32> {
    domain_len(&Look {
        before: before.as_bytes(),
        after,
    })
}

// So many times a byte, between two texts.
fn with_run(
    alloc: Global,
    front: &str,
    byte: u8,
    count: usize,
    end: &str,
) -> Result<Vec<u8>, NoMemory> {
    let mut text = Vec::from_slice(alloc, front.as_bytes())?;
    for _ in 0..count {
        text.push(byte)?;
    }
    text.extend_from_slice(end.as_bytes())?;
    Ok(text)
}

const URLS: &[(&str, Option<u32>)] = &[
    ("http://example.com/a b", Some(20)),
    ("HTTPS://X", Some(9)),
    ("ftp://a\0b", Some(7)),
    ("http://a.b/?u=http://c.d/", Some(25)),
    ("ftp://", None),
    ("ttp://a", None),
    ("http:/a", None),
    ("", None),
];

#[test]
fn a_url_is_its_scheme_and_the_run_behind_it(rt: HostRuntime) {
    for (text, want) in URLS {
        assert!(rt; url_of(text.as_bytes()) == *want, "at {text}");
    }
}

#[test]
fn a_url_has_at_most_2048_bytes(rt: HostRuntime) -> Result<(), Fail> {
    for (count, want) in [(2040, 2047), (2041, 2048), (2042, 2048)] {
        let text = with_run(rt.alloc(), "http://", b'a', count, "")?;
        assert!(rt; url_of(text.as_slice()) == Some(want), "at {count}");
    }
    Ok(())
}

const DOMAINS: &[(&str, &str, Option<u32>)] = &[
    ("http://", "example.com/a b", Some(11)),
    ("see HTTPS://", "a.b:80/@", Some(3)),
    ("ftp://", "a.b...", Some(3)),
    ("http://", ".a.b/", None),
    ("http://", "localhost/", None),
    ("http://", "localhost./", None),
    ("http://", "jo.doe@h.org/", None),
    ("http://", "a.b/jo@h.org", Some(3)),
    ("http://", "", None),
    ("gopher://", "a.b/", None),
    ("http:/", "/a.b/", None),
    ("", "a.b", None),
];

#[test]
fn a_domain_is_the_host_behind_a_scheme(rt: HostRuntime) {
    for (before, after, want) in DOMAINS {
        let found = domain_of(before, after.as_bytes());
        assert!(rt; found == *want, "at {before} and {after}");
    }
}

// How a host begins, how many letters follow, how it ends, and the bytes of its domain.
const HOSTS: &[(&str, usize, &str, Option<u32>)] = &[
    ("a.", 251, "/", Some(253)),
    ("a.", 252, "/", Some(253)),
    ("a.", 250, ".b/", Some(252)),
    ("a", 251, ".b/", None),
    ("a", 250, ".b/", Some(253)),
];

#[test]
fn a_host_has_at_most_253_bytes(rt: HostRuntime) -> Result<(), Fail> {
    for (front, count, end, want) in HOSTS {
        let host = with_run(rt.alloc(), front, b'a', *count, end)?;
        let found = domain_of("http://", host.as_slice());
        assert!(rt; found == *want, "at {count} of {front} and {end}");
    }
    Ok(())
}

#[test]
fn userinfo_counts_in_the_first_2048_bytes_of_an_authority(rt: HostRuntime) -> Result<(), Fail> {
    for (count, want) in [(2043, None), (2044, None), (2045, Some(3))] {
        let text = with_run(rt.alloc(), "a.b", b':', count, "@h")?;
        assert!(rt; domain_of("http://", text.as_slice()) == want, "at {count}");
    }
    Ok(())
}

// The kind, the place and the extent of a mark.
type Wanted = (Kind, usize, u32);

// The mark is that one.
fn is(mark: &Mark, want: &Wanted) -> bool {
    mark.kind == want.0 && mark.at == want.1 && mark.which == 0 && mark.extent == want.2
}

// The marks are those, in this order, and no others.
fn are(marks: &[Mark], want: &[Wanted]) -> bool {
    if marks.len() != want.len() {
        return false;
    }
    for i in 0..marks.len() {
        if !is(&marks[i], &want[i]) {
            return false;
        }
    }
    true
}

// A search of the text finds these marks.
fn finds(alloc: Global, text: &[u8], want: &[Wanted]) -> Result<bool, NoMemory> {
    let mut found = Found::make(alloc);
    find_urls(&Sbuf::child(text), true, true, &mut found)?;
    Ok(are(found.marks(), want))
}

const SEARCHES: &[(&str, &[Wanted])] = &[
    (
        "see http://example.com/a b",
        &[(Url, 4, 20), (Domain, 11, 11)],
    ),
    (
        "http://a.b/?u=http://c.d/",
        &[(Url, 0, 25), (Domain, 7, 3), (Url, 14, 11), (Domain, 21, 3)],
    ),
    (
        "http://http://a.b/",
        &[(Url, 0, 18), (Url, 7, 11), (Domain, 14, 3)],
    ),
    (
        "xhttps://a.b ftp://c",
        &[(Url, 1, 11), (Domain, 9, 3), (Url, 13, 7)],
    ),
    ("http://://a.b://c.d", &[(Url, 0, 19)]),
    ("http://jo.doe@h.org/", &[(Url, 0, 20)]),
    ("http://a.b...:80/", &[(Url, 0, 17), (Domain, 7, 3)]),
    ("http://.a.b/", &[(Url, 0, 12)]),
    ("http://localhost/", &[(Url, 0, 17)]),
    ("x ftp://", &[]),
    ("s://a.b tp://a.b ://a.b", &[]),
    ("", &[]),
];

#[test]
fn a_search_finds_each_url_and_each_domain(rt: HostRuntime) -> Result<(), Fail> {
    for (text, want) in SEARCHES {
        assert!(rt; finds(rt.alloc(), text.as_bytes(), want)?, "at {text}");
    }
    Ok(())
}

// The owned places, from the first to behind the last, whether URLs and domains are wanted, and the marks.
type Search = (usize, usize, bool, bool, &'static [Wanted]);

const SEARCHES_IN: &[Search] = &[
    (7, 12, true, true, &[(Domain, 7, 3)]),
    (0, 7, true, true, &[(Url, 0, 11)]),
    (0, 1, true, true, &[(Url, 0, 11)]),
    (1, 7, true, true, &[]),
    (8, 12, true, true, &[]),
    (8, 13, true, true, &[(Url, 12, 11)]),
    (13, 21, true, true, &[(Domain, 20, 3)]),
    (13, 20, true, true, &[]),
    (7, 7, true, true, &[]),
    (0, 23, true, false, &[(Url, 0, 11), (Url, 12, 11)]),
    (0, 23, false, true, &[(Domain, 7, 3), (Domain, 20, 3)]),
    (0, 23, false, false, &[]),
];

// The search of a buffer that owns these places of `http://a.b/ https://c.d` finds those marks.
fn finds_in(alloc: Global, search: &Search) -> Result<bool, NoMemory> {
    let (from, to, want_url, want_domain, want) = *search;
    if from > to || to > 23 {
        return Ok(false);
    }
    let mut found = Found::make(alloc);
    let sb = Sbuf::of(b"http://a.b/ https://c.d", from, to, 1000);
    find_urls(&sb, want_url, want_domain, &mut found)?;
    Ok(are(found.marks(), want))
}

#[test]
fn a_search_finds_the_wanted_marks_of_the_owned_places(rt: HostRuntime) -> Result<(), Fail> {
    for search in SEARCHES_IN {
        assert!(rt;
            finds_in(rt.alloc(), search)?,
            "from {} to {}",
            search.0,
            search.1
        );
    }
    Ok(())
}

// A second search appends its marks.
fn appends(alloc: Global) -> Result<bool, NoMemory> {
    let sb = Sbuf::child(b"ftp://a.b");
    let mut found = Found::make(alloc);
    find_urls(&sb, false, true, &mut found)?;
    find_urls(&sb, true, false, &mut found)?;
    Ok(are(found.marks(), &[(Domain, 6, 3), (Url, 0, 9)]))
}

#[test]
fn a_search_appends_its_marks(rt: HostRuntime) -> Result<(), Fail> {
    assert!(rt; appends(rt.alloc())?);
    Ok(())
}
