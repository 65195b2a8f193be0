// The lengths of the patterns' matches at the places of a piece.
ghost use Rattle.std.specs.Prelude.{◌≡◌, ◌-◌, ◌≤◌, length, map, take, slice_index, OnOk};
ghost use Rattle.scan_find.specs.Hits.{HitsMore, HitsRow, AreHits};
ghost use Rattle.scan_find.specs.Lengths.{IsRow, AreRows, length_of};
ghost use Rattle.scan_find.specs.declared.TheConstants.{PATTERNS_MOST};

use crate::hits::{hit_keywords, hit_rows};
use crate::keywords::Keywords;
use crate::{Matcher, PATTERNS_MOST};
use byte_kit::NoMemory;
use sbuf_nest::Places;
use std::alloc::Global;

// The lengths of one pattern's matches, a place each.
#[derive(Drop)]
pub(crate) struct Row {
    lengths: Vec<u32>,
}

impl Row {
    fn make(alloc: Global) -> Row {
        Row {
            lengths: Vec::new(alloc),
        }
    }

    // Takes the lengths at the places in place of those that it had.
    fn fill<M: Matcher>(
        &mut self,
        alloc: Global,
        bytes: &[u8],
        places: Places,
        matcher: &mut M,
    ) -> Result<(), NoMemory>
        requires ordered { places.from ≤ places.to }
        requires within { places.to ≤ length bytes.now }
        ensures same { M.reading matcher.new ≡ M.reading matcher.old }
        ensures ok { OnOk result (IsRow (M.matches (M.reading matcher.old)) bytes.now places.from (places.to - places.from) self.new) }
    {
        self.lengths.resize(places.to - places.from, 0)?;
        matcher.lens_at(alloc, bytes, places.from, self.lengths.as_mut_slice())
    }

    // The length at a place, by its number; 0 where there is none.
    pub(crate) fn length_at(&self, number: usize) -> u32
        ensures { result ≡ length_of self.now number }
    {
        match self.lengths.get(number) {
            Some(length) => *length,
            None => 0,
        }
    }

    // Hits each place whose length isn't 0.
    pub(crate) fn hit_into(&self, hits: &mut [u8])
        ensures long { length hits.new ≡ length hits.old }
        ensures kept { HitsMore hits.old hits.new }
        ensures hit { HitsRow self.now hits.new }
    {
        let lengths = self.lengths.as_slice();
        let count = hits.len().min(lengths.len());
        for k in 0..count {
            hits[k] = hit_of(hits[k], lengths[k]);
        }
    }
}

// Whether a place is hit that has this length: it stays so, whatever its length is.
#[inline(always)]
fn hit_of(hit: u8, length: u32) -> u8
    ensures hit { result ≡ 0 → hit ≡ 0 }
    ensures length { result ≡ 0 → length ≡ 0 }
{
    if length == 0 { hit } else { 1 }
}

/// The lists of lengths that a search for patterns fills, kept from one buffer to the next so that none
/// is made anew.
#[derive(Drop)]
pub struct Lengths {
    rows: [Row; PATTERNS_MOST],
    // Which places have to be judged: those whose number isn't 0.
    hits: Vec<u8>,
    ghost many: { length rows ≡ PATTERNS_MOST },
}

impl Lengths {
    /// Empty lists. They take no memory.
    pub fn make(alloc: Global) -> Lengths {
        Lengths {
            rows: [
                Row::make(alloc),
                Row::make(alloc),
                Row::make(alloc),
                Row::make(alloc),
            ],
            hits: Vec::new(alloc),
        }
    }

    // Fills a row for each matcher.
    pub(crate) fn fill<M: Matcher>(
        &mut self,
        alloc: Global,
        bytes: &[u8],
        places: Places,
        matchers: &mut [M],
    ) -> Result<(), NoMemory>
        requires ordered { places.from ≤ places.to }
        requires within { places.to ≤ length bytes.now }
        requires patterns { length matchers.old ≤ PATTERNS_MOST }
        ensures same { map M.reading matchers.new ≡ map M.reading matchers.old }
        ensures ok { OnOk result
            (AreRows (map M.matches (map M.reading matchers.old)) bytes.now places.from (places.to - places.from)
            (take (length matchers.old) self.new.rows)) }
    {
        fill_rows(alloc, bytes, places, matchers, self.rows.as_mut_slice())
    }

    // Hits the places where a keyword may stand, and those that have a length in the first few rows.
    pub(crate) fn hit(
        &mut self,
        bytes: &[u8],
        places: Places,
        keywords: &Keywords,
        count: usize,
    ) -> Result<(), NoMemory>
        requires ordered { places.from ≤ places.to }
        requires within { places.to ≤ length bytes.now }
        requires few { count ≤ PATTERNS_MOST }
        ensures same { self.new.rows ≡ self.old.rows }
        ensures ok { OnOk result
            (AreHits keywords.now.items.now bytes.now places.from (places.to - places.from) (take count self.old.rows) self.new.hits.items) }
    {
        self.hits.clear();
        self.hits.resize(places.to - places.from, 0)?;
        hit_keywords(keywords, bytes, places.from, self.hits.as_mut_slice());
        hit_rows(
            self.rows.as_slice().split_at(count).0,
            self.hits.as_mut_slice(),
        );
        Ok(())
    }

    // Which places are hit, lent.
    pub(crate) fn hits(&self) -> &[u8]
        ensures { result.now ≡ self.now.hits.items }
    {
        self.hits.as_slice()
    }

    // The first few rows, lent.
    pub(crate) fn rows(&self, count: usize) -> &[Row]
        requires { count ≤ PATTERNS_MOST }
        ensures { result.now ≡ take count self.now.rows }
    {
        self.rows.as_slice().split_at(count).0
    }
}

// Fills the first rows, one for each matcher.
fn fill_rows<M: Matcher>(
    alloc: Global,
    bytes: &[u8],
    places: Places,
    matchers: &mut [M],
    rows: &mut [Row],
) -> Result<(), NoMemory>
    requires ordered { places.from ≤ places.to }
    requires within { places.to ≤ length bytes.now }
    requires patterns { length matchers.old ≤ length rows.old }
    ensures same { map M.reading matchers.new ≡ map M.reading matchers.old }
    ensures ok { OnOk result
        (AreRows (map M.matches (map M.reading matchers.old)) bytes.now places.from (places.to - places.from)
        (take (length matchers.old) rows.new)) }
{
    for k in 0..matchers.len() {
        rows[k].fill(alloc, bytes, places, &mut matchers[k])?;
    }
    Ok(())
}
