// The search of a buffer for keywords and patterns.
//
// Keywords alone are looked for by their first three bytes, all of them in one test of sixteen places
// (`front.rt`): three bytes are the fewest by which 64 keywords pass over most places, and four cost more
// than they save. A place that passes is judged by the keywords that begin with its byte (`chains.rt`).
//
// With patterns the search goes piece by piece. A matcher gives its lengths for a whole piece, since each
// call of it has a cost of its own; these lengths, and the test of keywords, hit the places that have to be
// judged, a byte each, and the hits are searched by vectors. So neither rare nor frequent matches of one
// kind slow the others.
//
// It costs the vector test, which sees each owned byte about once, at 2 GB/s for 8 keywords and 0.8 GB/s for
// 64 of the words that people write, and for each pattern what its matcher costs and four bytes written and
// read. The worst images are those where most places are judged: one letter over and over again, where
// that letter is a keyword or begins many; and for patterns those that match at each place.
ghost use Rattle.std.specs.Prelude.{◌≡◌, ◌-◌, ◌≤◌, ◌++◌, length, map, OnOk, OnErr};
ghost use Rattle.std.specs.List.{All};
ghost use Rattle.sbuf_nest.specs.Marks.{marks_of, owned_marks, AppendsFirst};
ghost use Rattle.scan_find.specs.Find.{keyword_of};
ghost use Rattle.scan_find.specs.Marks.{IsText, given_marks, numbered_marks};
ghost use Rattle.scan_find.specs.declared.TheConstants.{KEYWORDS_MOST, PATTERNS_MOST};

use crate::keywords::{KeywordSearch, Keywords};
use crate::piece::PieceSearch;
use crate::{Lengths, Matcher};
use byte_kit::{Bytes, NoMemory};
use sbuf_nest::{Found, Places, Sbuf, find_marks};
use std::alloc::Global;

// How many places a matcher is asked for at once. With a quarter of it a pattern with the classes of
// Unicode costs half as much again.
pub(crate) const PIECE: usize = 65536;

/// Appends the marks of the keywords and of the patterns' matches that stand at the places that the
/// buffer owns, in order of place: at one place first each keyword that stands there, whose `which` is
/// its index, then each pattern that matches at least 1 byte there, whose `which` is `KEYWORDS_MOST` plus
/// its index. The extent is the keyword's or the match's length. A matcher that is handed in means
/// afterwards what it meant before. Its one refusal is want of memory, which leaves the first few of
/// these marks appended.
pub fn find_words_given<M: Matcher>(
    alloc: Global,
    sb: &Sbuf,
    keywords: &[Bytes],
    matchers: &mut [M],
    found: &mut Found,
) -> Result<(), NoMemory>
    requires keywords { length keywords.now ≤ KEYWORDS_MOST }
    requires texts { All IsText keywords.now }
    requires patterns { length matchers.old ≤ PATTERNS_MOST }
    ensures same { map M.reading matchers.new ≡ map M.reading matchers.old }
    ensures ok { OnOk result
        (found.new ≡ found.old ++ owned_marks (given_marks keywords.now (map M.matches (map M.reading matchers.old))) sb.now) }
    ensures err { OnErr result
        (AppendsFirst found.old found.new (owned_marks (given_marks keywords.now (map M.matches (map M.reading matchers.old))) sb.now)) }
{
    find_given_into(
        alloc,
        sb,
        keywords,
        matchers,
        &mut Lengths::make(alloc),
        found,
    )
}

/// The same over lists of lengths that are kept from one buffer to the next, so that none is made anew.
/// What they hold between two searches is of no use to anyone.
pub fn find_given_into<M: Matcher>(
    alloc: Global,
    sb: &Sbuf,
    keywords: &[Bytes],
    matchers: &mut [M],
    lengths: &mut Lengths,
    found: &mut Found,
) -> Result<(), NoMemory>
    requires keywords { length keywords.now ≤ KEYWORDS_MOST }
    requires texts { All IsText keywords.now }
    requires patterns { length matchers.old ≤ PATTERNS_MOST }
    ensures same { map M.reading matchers.new ≡ map M.reading matchers.old }
    ensures ok { OnOk result
        (found.new ≡ found.old ++ owned_marks (given_marks keywords.now (map M.matches (map M.reading matchers.old))) sb.now) }
    ensures err { OnErr result
        (AppendsFirst found.old found.new (owned_marks (given_marks keywords.now (map M.matches (map M.reading matchers.old))) sb.now)) }
{
    if matchers.is_empty() {
        return find_keywords(sb, keywords, found);
    }
    let keywords = Keywords::of(keywords);
    search_pieces(alloc, sb, &keywords, matchers, lengths, found)
}

// Appends the marks of the keywords. Where there are none, as for most values of encoded texts, no table is
// made.
fn find_keywords(sb: &Sbuf, keywords: &[Bytes], found: &mut Found) -> Result<(), NoMemory>
    requires keywords { length keywords.now ≤ KEYWORDS_MOST }
    requires texts { All IsText keywords.now }
    ensures ok { OnOk result
        (found.new ≡ found.old ++ owned_marks (λ look place. numbered_marks (λ keyword. keyword_of keyword look) 0 keywords.now place) sb.now) }
    ensures err { OnErr result
        (AppendsFirst found.old found.new (owned_marks (λ look place. numbered_marks (λ keyword. keyword_of keyword look) 0 keywords.now place) sb.now)) }
{
    if keywords.is_empty() {
        return Ok(());
    }
    let keywords = Keywords::of(keywords);
    let mut search = KeywordSearch {
        keywords: &keywords,
    };
    find_marks(sb, &mut search, found)
}

// Goes over the owned places piece by piece.
fn search_pieces<M: Matcher>(
    alloc: Global,
    sb: &Sbuf,
    keywords: &Keywords,
    matchers: &mut [M],
    lengths: &mut Lengths,
    found: &mut Found,
) -> Result<(), NoMemory>
    requires patterns { length matchers.old ≤ PATTERNS_MOST }
    ensures same { map M.reading matchers.new ≡ map M.reading matchers.old }
    ensures ok { OnOk result
        (found.new ≡ found.old ++ owned_marks (given_marks keywords.now.items.now (map M.matches (map M.reading matchers.old))) sb.now) }
    ensures err { OnErr result
        (AppendsFirst found.old found.new (owned_marks (given_marks keywords.now.items.now (map M.matches (map M.reading matchers.old))) sb.now)) }
{
    let mut next = sb.own_from();
    while next < sb.own_to() {
        let end = next + (sb.own_to() - next).min(PIECE);
        let places = Places {
            from: next,
            to: end,
        };
        search_piece(alloc, sb, places, keywords, matchers, lengths, found)?;
        next = end;
    }
    Ok(())
}

// Appends the marks of the places.
fn search_piece<M: Matcher>(
    alloc: Global,
    sb: &Sbuf,
    places: Places,
    keywords: &Keywords,
    matchers: &mut [M],
    lengths: &mut Lengths,
    found: &mut Found,
) -> Result<(), NoMemory>
    requires ordered { places.from ≤ places.to }
    requires within { places.to ≤ length sb.now.bytes.now }
    requires patterns { length matchers.old ≤ PATTERNS_MOST }
    ensures same { map M.reading matchers.new ≡ map M.reading matchers.old }
    ensures ok { OnOk result
        (found.new ≡ found.old ++ marks_of (given_marks keywords.now.items.now (map M.matches (map M.reading matchers.old))) sb.now.bytes.now places.from (places.to - places.from)) }
    ensures err { OnErr result
        (AppendsFirst found.old found.new (marks_of (given_marks keywords.now.items.now (map M.matches (map M.reading matchers.old))) sb.now.bytes.now places.from (places.to - places.from))) }
{
    lengths.fill(alloc, sb.bytes, places, matchers)?;
    lengths.hit(sb.bytes, places, keywords, matchers.len())?;
    let mut search = PieceSearch {
        keywords,
        rows: lengths.rows(matchers.len()),
        hits: lengths.hits(),
        first: places.from,
    };
    find_marks(
        &Sbuf::of(sb.bytes, places.from, places.to, sb.base),
        &mut search,
        found,
    )
}
