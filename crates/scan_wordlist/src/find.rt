// The search of a buffer for words.
//
// It goes by a search for places where as many word bytes stand in a row as the shortest word has, or a
// few of them: up to six vectors for sixteen places. In random bytes one place of 400 has six of them in
// a row, and a run of word bytes is judged at its first place only: the rest of it is passed over at once.
//
// It costs the vector search, which sees each owned byte about twice, and the judging, which reads at
// most one byte more than the longest word has. The worst image is a text of short words.
ghost use Rattle.std.specs.Prelude.{◌≡◌, ◌<◌, ◌≤◌, ◌++◌, length, OnOk, OnErr};
ghost use Rattle.sbuf_nest.specs.Marks.{owned_marks, AppendsFirst};
ghost use Rattle.vector_search.specs.Places.{NoneIn};
ghost use Rattle.scan_wordlist.specs.declared.TheConstants.{WORD_MOST};
ghost use Rattle.scan_wordlist.specs.Filter.{begins_row, AreInside};
ghost use Rattle.scan_wordlist.specs.Marks.{word_marks};

use crate::filter::{RowTest, StrangerTest, next_near};
use crate::{WORD_MOST, word_len};
use byte_kit::{NoMemory, is_word};
use forensic_path::Kind;
use sbuf_nest::{Found, Look, Mark, Places, Sbuf, Search, find_marks};

/// Appends the marks of the words that begin at the places that the buffer owns, in order of place. A
/// word has at least `min` and at most `max` bytes, which are 1 to `WORD_MOST`; the extent is `word_len`
/// there. Its one refusal is want of memory, which leaves the first few of these marks appended.
pub fn find_words(sb: &Sbuf, min: u16, max: u16, found: &mut Found) -> Result<(), NoMemory>
    requires least { 1 ≤ min }
    requires ordered { min ≤ max }
    requires most { max ≤ WORD_MOST }
    ensures ok { OnOk result (found.new ≡ found.old ++ owned_marks (word_marks min max) sb.now) }
    ensures err { OnErr result (AppendsFirst found.old found.new (owned_marks (word_marks min max) sb.now)) }
{
    find_marks(sb, &mut WordSearch { min, max }, found)
}

// The search for words, and how many bytes they have.
#[derive(Drop)]
struct WordSearch {
    min: u16,
    max: u16,
    ghost least: { 1 ≤ min },
    ghost ordered: { min ≤ max },
    ghost most: { max ≤ WORD_MOST },
}

impl Search for WordSearch {
    type Item = Mark;

    ghost judge = { λ s. word_marks s.min s.max };

    // The next place with enough word bytes in a row, behind the run that `next` may stand in.
    fn next_places(&mut self, sb: &Sbuf, next: usize) -> Option<Places> {
        let from = past_run(sb.bytes, next, sb.own_to());
        let at = next_row(sb.bytes, from, sb.own_to(), self.min);
        if at == sb.own_to() {
            return None;
        }
        Some(Places {
            from: at,
            to: at + 1,
        })
    }

    fn marks_into(&mut self, look: &Look, place: usize, found: &mut Found) -> Result<(), NoMemory> {
        found.add_extent(place, Kind::Word, 0, word_len(look, self.min, self.max))
    }
}

// The place behind the run of word bytes that `next` stands in, or `next` where none began ahead of it.
fn past_run(bytes: &[u8], next: usize, to: usize) -> usize
    requires ordered { next ≤ to }
    requires within { to ≤ length bytes.now }
    ensures low { next ≤ result }
    ensures high { result ≤ to }
    ensures inside { AreInside bytes.now next result }
{
    if next == 0 || !is_word(bytes[next - 1]) {
        return next;
    }
    next_near(&StrangerTest, bytes, next, to)
}

// The next place from which on as many word bytes stand in a row as are asked for, or a few of them.
fn next_row(bytes: &[u8], from: usize, to: usize, least: u16) -> usize
    requires ordered { from ≤ to }
    requires within { to ≤ length bytes.now }
    requires some { 1 ≤ least }
    ensures low { from ≤ result }
    ensures high { result ≤ to }
    ensures before { NoneIn (begins_row least bytes.now) from result }
{
    if least >= 6 {
        return next_near(&RowTest::<5>, bytes, from, to);
    }
    if least >= 4 {
        return next_near(&RowTest::<3>, bytes, from, to);
    }
    if least >= 2 {
        return next_near(&RowTest::<1>, bytes, from, to);
    }
    next_near(&RowTest::<0>, bytes, from, to)
}
