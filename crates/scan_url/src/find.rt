// The search of a buffer for URLs and domains.
//
// It goes by a search for `://`, which each URL has behind the name of its scheme, and each domain
// right ahead of it. Two of its bytes are looked for, sixteen places at a time; it is rare elsewhere; and it
// has no letters, so their case makes no difference. Four places are judged for each one: a name has 3 to 5
// letters.
//
// It costs the vector search, which sees each owned byte about once, and the judging, which reads at
// most `URL_MOST` bytes of a URL and as many of an authority. The worst image is `ftp://` over and over
// again: each six bytes of it begin a URL of `URL_MOST` bytes.
ghost use Rattle.std.specs.Prelude.{◌≡◌, ◌+◌, ◌<◌, ◌≤◌, ◌++◌, length, IfNone, IfSome, OnOk, OnErr};
ghost use Rattle.sbuf_nest.specs.Marks.{owned_marks, AppendsFirst};
ghost use Rattle.scan_url.specs.Marks.{url_marks};
ghost use Rattle.scan_url.specs.SchemeEnd.{may_end_scheme, ends_scheme, EndsScheme, NoSchemeEnd};

use crate::{domain_len, url_len};
use byte_kit::NoMemory;
use forensic_path::Kind;
use sbuf_nest::{Found, Look, Mark, Places, Sbuf, Search, find_marks};
use std::simd::prelude::*;
use vector_search::{PlaceTest, next_place};

// How many bytes every scheme ends with, behind its name.
const END_BYTES: usize = b"://".len();

// How many bytes the shortest name of a scheme has.
const NAME_LEAST: usize = b"ftp".len();

// How many bytes the longest name of a scheme has.
const NAME_MOST: usize = b"https".len();

/// Appends the marks of the URLs and of the domains, each where it is wanted, that stand at the
/// places that the buffer owns, in order of place, and at one place the URL first. The extent is
/// `url_len` or `domain_len` there. Its one refusal is want of memory, which leaves the first few of
/// these marks appended.
pub fn find_urls(
    sb: &Sbuf,
    want_url: bool,
    want_domain: bool,
    found: &mut Found,
) -> Result<(), NoMemory>
    ensures ok { OnOk result (found.new ≡ found.old ++ owned_marks (url_marks want_url want_domain) sb.now) }
    ensures err { OnErr result
        (AppendsFirst found.old found.new (owned_marks (url_marks want_url want_domain) sb.now)) }
{
    let mut search = UrlSearch {
        want_url,
        want_domain,
    };
    find_marks(sb, &mut search, found)
}

// Which of the two kinds are wanted.
#[derive(Drop)]
struct UrlSearch {
    want_url: bool,
    want_domain: bool,
}

impl Search for UrlSearch {
    type Item = Mark;

    ghost judge = { λ s. url_marks s.want_url s.want_domain };

    // The places ahead of the next `://` where a scheme of its may begin, or, behind these, the one
    // where its host does: no URL begins between them, since a scheme's name is letters.
    fn next_places(&mut self, sb: &Sbuf, next: usize) -> Option<Places> {
        let Some(at) = next_scheme_end(sb, next) else {
            return None;
        };
        if next + NAME_LEAST <= at {
            return Some(Places {
                from: next.max(at.saturating_sub(NAME_MOST)),
                to: (at - NAME_LEAST + 1).min(sb.own_to()),
            });
        }
        let host = at + END_BYTES;
        if host >= sb.own_to() {
            return None;
        }
        Some(Places {
            from: host,
            to: host + 1,
        })
    }

    fn marks_into(&mut self, look: &Look, place: usize, found: &mut Found) -> Result<(), NoMemory> {
        let url = if self.want_url { url_len(look) } else { None };
        let domain = if self.want_domain {
            domain_len(look)
        } else {
            None
        };
        found.add_extent(place, Kind::Url, 0, url)?;
        found.add_extent(place, Kind::Domain, 0, domain)
    }
}

// The first `://` that can be of use to an owned place from `next` on: one that ends at `next` or
// behind it, and begins no further behind the last owned place than the longest name is long.
fn next_scheme_end(sb: &Sbuf, next: usize) -> Option<usize>
    requires owned { next < sb.now.own_to }
    ensures none { IfNone result (NoSchemeEnd sb.now.bytes.now next (sb.now.own_to + NAME_MOST)) }
    ensures stands { IfSome result (EndsScheme sb.now.bytes.now) }
    ensures first { IfSome result (NoSchemeEnd sb.now.bytes.now next) }
    ensures near { IfSome result (λ at. (next ≤ at + END_BYTES) × (at < sb.now.own_to + NAME_MOST)) }
{
    let end = (sb.own_to() + NAME_MOST).min(sb.len());
    let mut at = next_place(
        &SchemeEndTest,
        sb.bytes,
        next.saturating_sub(END_BYTES),
        end,
    );
    while at < end {
        if ends_scheme(sb.bytes, at) {
            return Some(at);
        }
        at = next_place(&SchemeEndTest, sb.bytes, at + 1, end);
    }
    None
}

// The end of a scheme stands at the place.
#[tactic(auto, unfolding(crate::specs::SchemeEnd::ends_scheme))]
fn ends_scheme(bytes: &[u8], at: usize) -> bool
    requires { at < length bytes.now }
    ensures { result ≡ ends_scheme bytes.now at }
{
    SchemeEndTest.passes_at(bytes, at) && bytes.len() - at > 2 && bytes[at + 2] == b'/'
}

// The test of places for the first two bytes of a scheme's end.
struct SchemeEndTest;

impl PlaceTest for SchemeEndTest {
    ghost passes = { λ _. may_end_scheme };

    ghost REACH = { 1 };

    const REACH: usize = 1;

    #[inline(always)]
    fn mask(&self, bytes: &[u8], at: usize) -> u64 {
        let first = u8x16::from_slice(&bytes[at..]);
        let second = u8x16::from_slice(&bytes[at + 1..]);
        (first.simd_eq(u8x16::splat(b':')) & second.simd_eq(u8x16::splat(b'/'))).to_bitmask()
    }

    #[inline(always)]
    #[tactic(auto, unfolding(crate::specs::SchemeEnd::may_end_scheme))]
    fn passes_at(&self, bytes: &[u8], place: usize) -> bool {
        bytes[place] == b':' && bytes.len() - place > 1 && bytes[place + 1] == b'/'
    }
}
