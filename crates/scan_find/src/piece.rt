// The search of a piece, whose patterns' lengths are there already.
ghost use Rattle.std.specs.Prelude.{◌≡◌, ◌==◌, ◌+◌, ◌-◌, ◌≤◌, [], ◌++◌, not, length, slice_index, OnOk, OnErr, if◌then◌else◌};
ghost use Rattle.sbuf_nest.specs.Marks.{AppendsFirst};
ghost use Rattle.scan_find.specs.Find.{keyword_of, of_some_length};
ghost use Rattle.scan_find.specs.Lengths.{length_of};
ghost use Rattle.scan_find.specs.Marks.{numbered_marks};
ghost use Rattle.scan_find.specs.declared.TheConstants.{KEYWORDS_MOST, PATTERNS_MOST};

use crate::KEYWORDS_MOST;
use crate::keywords::Keywords;
use crate::lengths::Row;
use byte_kit::NoMemory;
use forensic_path::Kind;
use sbuf_nest::{Found, Look, Mark, Places, Sbuf, Search};
use std::simd::prelude::*;
use vector_search::{PlaceTest, next_place};

// The keywords, and of the places from the first one on the patterns' lengths, a row for each, and which
// of these places are hit. A place that isn't hit has no mark.
#[derive(Drop)]
pub(crate) struct PieceSearch<'s, 'a> {
    pub(crate) keywords: &'s Keywords<'a>,
    pub(crate) rows: &'s [Row],
    pub(crate) hits: &'s [u8],
    pub(crate) first: usize,
    ghost few_rows: { length rows.now ≤ PATTERNS_MOST },
}

impl<'s, 'a> Search for PieceSearch<'s, 'a> {
    type Item = Mark;

    ghost judge = { λ s look place.
        if slice_index s.hits.now (place - s.first) == 0 then [] else
        numbered_marks (λ keyword. keyword_of keyword look) 0 s.keywords.now.items.now place
        ++ numbered_marks (λ row. of_some_length (length_of row (place - s.first))) KEYWORDS_MOST s.rows.now place };

    // The next place of the piece that is hit.
    fn next_places(&mut self, sb: &Sbuf, next: usize) -> Option<Places> {
        let end = sb.own_to();
        if next < self.first || end - self.first > self.hits.len() {
            return Some(Places {
                from: next,
                to: next + 1,
            });
        }
        let hit = next_place(&HitTest, self.hits, next - self.first, end - self.first);
        if hit >= end - self.first {
            return None;
        }
        Some(Places {
            from: self.first + hit,
            to: self.first + hit + 1,
        })
    }

    fn marks_into(&mut self, look: &Look, place: usize, found: &mut Found) -> Result<(), NoMemory> {
        let number = place.saturating_sub(self.first);
        if !is_hit(self.hits, number) {
            return Ok(());
        }
        self.keywords.marks_into(look, place, found)?;
        add_lengths(self.rows, number, place, found)
    }
}

// The place of this number is hit.
fn is_hit(hits: &[u8], number: usize) -> bool
    ensures { result ≡ not (slice_index hits.now number == 0) }
{
    number < hits.len() && hits[number] != 0
}

// Appends the marks of the matches at the place, which is that of this number in the rows.
fn add_lengths(rows: &[Row], number: usize, place: usize, found: &mut Found) -> Result<(), NoMemory>
    requires few { length rows.now ≤ PATTERNS_MOST }
    ensures ok { OnOk result
        (found.new ≡ found.old ++ numbered_marks (λ row. of_some_length (length_of row number)) KEYWORDS_MOST rows.now place) }
    ensures err { OnErr result
        (AppendsFirst found.old found.new (numbered_marks (λ row. of_some_length (length_of row number)) KEYWORDS_MOST rows.now place)) }
{
    for k in 0..rows.len() {
        let which = (KEYWORDS_MOST + k) as u16;
        found.add_extent(
            place,
            Kind::Find,
            which,
            some_length(rows[k].length_at(number)),
        )?;
    }
    Ok(())
}

// A length of at least 1.
fn some_length(length: u32) -> Option<u32>
    ensures { result ≡ of_some_length length }
{
    if length == 0 {
        return None;
    }
    Some(length)
}

// The test of places that are hit.
struct HitTest;

impl PlaceTest for HitTest {
    ghost passes = { λ _ hits number. not (slice_index hits number == 0) };

    ghost REACH = { 0 };

    const REACH: usize = 0;

    #[inline(always)]
    fn mask(&self, bytes: &[u8], at: usize) -> u64 {
        u8x16::from_slice(&bytes[at..])
            .simd_ne(u8x16::splat(0))
            .to_bitmask()
    }

    #[inline(always)]
    fn passes_at(&self, bytes: &[u8], place: usize) -> bool {
        bytes[place] != 0
    }
}
