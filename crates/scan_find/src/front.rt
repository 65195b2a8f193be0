// The test of places that a search for keywords goes by, all of them at once: the first three bytes.
//
// Each keyword is in one of eight buckets, by its first byte. A table knows which buckets let a byte
// pass, by either of its halves; a vector of sixteen bytes is looked up in it twice. A keyword of one or
// two bytes lets any bytes pass behind them. With up to eight keywords whose buckets differ only their
// own three bytes pass; with more, bytes that are mixed of those of a bucket pass too.
ghost use Rattle.std.specs.Prelude.{◌≡◌, ◌+◌, ◌<◌, ◌≤◌, ℕ, length, map, slice_index};
ghost use Rattle.std.specs.List.{All};
ghost use Rattle.scan_find.specs.Marks.{IsText};
ghost use Rattle.scan_find.specs.Front.{buckets_of, may_stand, LetsPass, LetsByte, LetsKeyword, PassesMore};

use crate::byte_table::ByteTable;
use byte_kit::Bytes;
use std::simd::prelude::*;
use vector_search::{PlaceTest, by_high_half, by_low_half};

impl ByteTable {
    // Lets a byte pass in a bucket.
    fn let_byte(&mut self, byte: u8, bucket: u8)
        requires { bucket < 8 }
        ensures kept { PassesMore self.old self.new }
        ensures added { LetsPass self.new byte bucket }
    {
        self.low[(byte & 15) as usize] |= 1 << bucket;
        self.high[(byte >> 4) as usize] |= 1 << bucket;
    }

    // Lets any byte pass in a bucket.
    fn let_any(&mut self, bucket: u8)
        requires { bucket < 8 }
        ensures kept { PassesMore self.old self.new }
        ensures added { (byte : ℕ) → byte < 256 → LetsPass self.new byte bucket }
    {
        let bit = u8x16::splat(1 << bucket);
        self.low = (u8x16::from_array(self.low) | bit).to_array();
        self.high = (u8x16::from_array(self.high) | bit).to_array();
    }

    // Lets the keyword's byte at this index pass in its bucket.
    fn let_keyword(&mut self, keyword: &[u8], at: usize)
        requires { 1 ≤ length keyword.now }
        ensures kept { PassesMore self.old self.new }
        ensures added { LetsByte self.new keyword.now at }
    {
        let bucket = keyword[0] % 8;
        match keyword.get(at) {
            Some(byte) => self.let_byte(*byte, bucket),
            None => self.let_any(bucket),
        }
    }

    // The buckets that let a byte pass.
    #[inline(always)]
    fn buckets(&self, byte: u8) -> u8
        ensures { result ≡ buckets_of self.now byte }
    {
        self.low[(byte & 15) as usize] & self.high[(byte >> 4) as usize]
    }

    // The same of each byte of a vector.
    #[inline(always)]
    fn buckets_of_each(&self, bytes: u8x16) -> u8x16
        ensures { result ≡ map (buckets_of self.now) bytes }
    {
        by_low_half(self.low, bytes) & by_high_half(self.high, bytes)
    }
}

// Which bytes may stand at a place where a keyword does, and at the two behind it.
#[derive(Clone, Copy)]
pub(crate) struct Front {
    first: ByteTable,
    second: ByteTable,
    third: ByteTable,
}

impl Front {
    // The front of these keywords.
    pub(crate) fn of(keywords: &[Bytes]) -> Front
        requires { All IsText keywords.now }
        ensures { All (LetsKeyword result) keywords.now }
    {
        let mut front = Front {
            first: ByteTable::empty(),
            second: ByteTable::empty(),
            third: ByteTable::empty(),
        };
        for k in 0..keywords.len() {
            front.let_keyword(keywords[k].as_slice());
        }
        front
    }

    // Lets a keyword pass.
    fn let_keyword(&mut self, keyword: &[u8])
        requires { 1 ≤ length keyword.now }
        ensures first { PassesMore self.old.first self.new.first }
        ensures second { PassesMore self.old.second self.new.second }
        ensures third { PassesMore self.old.third self.new.third }
        ensures added { LetsKeyword self.new keyword.now }
    {
        self.first.let_keyword(keyword, 0);
        self.second.let_keyword(keyword, 1);
        self.third.let_keyword(keyword, 2);
    }
}

impl PlaceTest for Front {
    ghost passes = { may_stand };

    ghost REACH = { 2 };

    const REACH: usize = 2;

    #[inline(always)]
    fn mask(&self, bytes: &[u8], at: usize) -> u64 {
        let first = u8x16::from_slice(&bytes[at..]);
        let second = u8x16::from_slice(&bytes[at + 1..]);
        let third = u8x16::from_slice(&bytes[at + 2..]);
        let buckets = self.first.buckets_of_each(first)
            & self.second.buckets_of_each(second)
            & self.third.buckets_of_each(third);
        buckets.simd_ne(u8x16::splat(0)).to_bitmask()
    }

    #[inline(always)]
    #[tactic(auto, unfolding(crate::specs::Front::may_stand))]
    fn passes_at(&self, bytes: &[u8], place: usize) -> bool {
        let second = byte_behind(bytes, place, 1);
        let third = byte_behind(bytes, place, 2);
        self.first.buckets(bytes[place]) & self.second.buckets(second) & self.third.buckets(third)
            != 0
    }
}

// The byte so many places behind a place, or 0 behind the end.
fn byte_behind(bytes: &[u8], place: usize, behind: usize) -> u8
    requires { place < length bytes.now }
    ensures { result ≡ slice_index bytes.now (place + behind) }
{
    if bytes.len() - place > behind {
        return bytes[place + behind];
    }
    0
}
