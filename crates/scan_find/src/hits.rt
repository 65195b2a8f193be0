// Which places of a piece have to be judged.
ghost use Rattle.std.specs.Prelude.{◌≡◌, ◌+◌, ◌<◌, ◌≤◌, ℕ, length, slice_index, slice_index_or};
ghost use Rattle.scan_find.specs.Hits.{HitsMore, HitsKeywords, HitsRow, HitsRows};

use crate::keywords::Keywords;
use crate::lengths::Row;

// Hits each place where a keyword may stand. The places are those from the first one on.
pub(crate) fn hit_keywords(keywords: &Keywords, bytes: &[u8], first: usize, hits: &mut [u8])
    requires within { first + length hits.old ≤ length bytes.now }
    ensures long { length hits.new ≡ length hits.old }
    ensures kept { HitsMore hits.old hits.new }
    ensures hit { HitsKeywords keywords.now.items.now bytes.now first (length hits.old) hits.new }
{
    let end = first + hits.len();
    let mut next = first;
    while next < end {
        let place = keywords.next_place(bytes, next, end);
        if place >= end {
            return;
        }
        hits[place - first] = 1;
        next = place + 1;
    }
}

// Hits each place where a pattern matches at least 1 byte.
pub(crate) fn hit_rows(rows: &[Row], hits: &mut [u8])
    ensures long { length hits.new ≡ length hits.old }
    ensures kept { HitsMore hits.old hits.new }
    ensures hit { HitsRows rows.now (length rows.now) hits.new }
{
    for k in 0..rows.len() {
        rows[k].hit_into(hits);
    }
}
