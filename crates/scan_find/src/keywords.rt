// The keywords of a search, and the search of a buffer for them alone.
ghost use Rattle.std.specs.Prelude.{◌≡◌, ◌+◌, ◌<◌, ◌≤◌, ◌++◌, ℕ, List, length, slice_index, slice_index_or, nat_eq, OnOk, OnErr};
ghost use Rattle.std.specs.List.{All, starts_with};
ghost use Rattle.sbuf_nest.specs.Around.{seen};
ghost use Rattle.sbuf_nest.specs.Marks.{AppendsFirst};
ghost use Rattle.scan_find.specs.Chains.{AreChained, IsNextWith};
ghost use Rattle.scan_find.specs.Find.{keyword_of};
ghost use Rattle.scan_find.specs.Front.{LetsKeyword, NoneStands};
ghost use Rattle.scan_find.specs.Marks.{IsText, numbered_marks};
ghost use Rattle.scan_find.specs.declared.TheConstants.{KEYWORDS_MOST};

use crate::chains::Chains;
use crate::front::Front;
use byte_kit::{Bytes, NoMemory};
use forensic_path::Kind;
use sbuf_nest::{Found, Look, Mark, Places, Sbuf, Search};
use vector_search::next_place;

// Keywords, the test of places that goes ahead of them, and their chains.
#[derive(Clone, Copy)]
pub(crate) struct Keywords<'a> {
    pub(crate) items: &'a [Bytes],
    pub(crate) front: Front,
    pub(crate) chains: Chains,
    ghost few: { length items.now ≤ KEYWORDS_MOST },
    ghost texts: { All IsText items.now },
    ghost pass: { All (LetsKeyword front) items.now },
    ghost chained: { AreChained items.now chains.heads chains.nexts },
}

impl<'a> Keywords<'a> {
    pub(crate) fn of(items: &'a [Bytes]) -> Keywords<'a>
        requires few { length items.now ≤ KEYWORDS_MOST }
        requires texts { All IsText items.now }
        ensures { result.items.now ≡ items.now }
    {
        Keywords {
            items,
            front: Front::of(items),
            chains: Chains::of(items),
        }
    }

    // The next place from `from` up to `to` where a keyword may stand, or `to` where none does.
    pub(crate) fn next_place(&self, bytes: &[u8], from: usize, to: usize) -> usize
        requires ordered { from ≤ to }
        requires within { to ≤ length bytes.now }
        ensures low { from ≤ result }
        ensures high { result ≤ to }
        ensures none { NoneStands self.now.items.now bytes.now from result }
    {
        if self.items.is_empty() {
            return to;
        }
        next_place(&self.front, bytes, from, to)
    }

    // The first keyword that begins with the byte, or how many there are where none does.
    #[inline(always)]
    fn first_with(&self, byte: u8) -> usize
        ensures { IsNextWith self.now.items.now byte 0 result }
    {
        self.chains.first(byte)
    }

    // The next keyword that begins with the same byte as this one.
    #[inline(always)]
    fn next_with(&self, which: usize) -> usize
        requires { which < length self.now.items.now }
        ensures { (d : List ℕ) → IsNextWith self.now.items.now (slice_index (slice_index_or self.now.items.now which d) 0) (which + 1) result }
    {
        self.chains.next(which)
    }

    // Appends the marks of the keywords that stand at the place.
    pub(crate) fn marks_into(
        &self,
        look: &Look,
        place: usize,
        found: &mut Found,
    ) -> Result<(), NoMemory>
        ensures ok { OnOk result
            (found.new ≡ found.old ++ numbered_marks (λ keyword. keyword_of keyword (seen look.now)) 0 self.now.items.now place) }
        ensures err { OnErr result
            (AppendsFirst found.old found.new (numbered_marks (λ keyword. keyword_of keyword (seen look.now)) 0 self.now.items.now place)) }
    {
        if look.after.is_empty() {
            return Ok(());
        }
        let mut which = self.first_with(look.after[0]);
        while which < self.items.len() {
            let extent = keyword_extent(&self.items[which], look);
            found.add_extent(place, Kind::Find, which as u16, extent)?;
            which = self.next_with(which);
        }
        Ok(())
    }
}

// The length of the keyword, where it stands.
fn keyword_extent(keyword: &Bytes, look: &Look) -> Option<u32>
    requires { IsText keyword.now }
    ensures { result ≡ keyword_of keyword.now (seen look.now) }
{
    let keyword = keyword.as_slice();
    if !stands(keyword, look.after) {
        return None;
    }
    Some(keyword.len() as u32)
}

// The keyword is a front of the bytes. Most that aren't differ in the second byte already.
#[inline]
fn stands(keyword: &[u8], bytes: &[u8]) -> bool
    ensures { result ≡ starts_with nat_eq bytes.now keyword.now }
{
    if keyword.len() > 1 && bytes.len() > 1 && bytes[1] != keyword[1] {
        return false;
    }
    bytes.starts_with(keyword)
}

// The search for keywords alone.
#[derive(Drop)]
pub(crate) struct KeywordSearch<'s, 'a> {
    pub(crate) keywords: &'s Keywords<'a>,
}

impl<'s, 'a> Search for KeywordSearch<'s, 'a> {
    type Item = Mark;

    ghost judge = { λ s look place. numbered_marks (λ keyword. keyword_of keyword look) 0 s.keywords.now.items.now place };

    // The next place where a keyword may stand.
    fn next_places(&mut self, sb: &Sbuf, next: usize) -> Option<Places> {
        let place = self.keywords.next_place(sb.bytes, next, sb.own_to());
        if place >= sb.own_to() {
            return None;
        }
        Some(Places {
            from: place,
            to: place + 1,
        })
    }

    fn marks_into(&mut self, look: &Look, place: usize, found: &mut Found) -> Result<(), NoMemory> {
        self.keywords.marks_into(look, place, found)
    }
}
