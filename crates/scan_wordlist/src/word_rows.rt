// The search for many word bytes in a row.
ghost use Rattle.std.specs.Prelude.{◌≤◌, length};
ghost use Rattle.scan_wordlist.specs.Filter.{is_stranger};
ghost use Rattle.vector_search.specs.Rows.{IsNextRow};

use crate::filter::StrangerTest;
use vector_search::next_row;

/// The first place from `from` up to `to` from which on 32 word bytes stand in a row
/// (`vector_search::ROW`), or `to` where none does. The bytes may go on behind `to`, and are read.
///
/// It asks one comparison of a byte, and in bytes without such rows it looks at two of three. So it tells
/// at little cost where no text can begin whose bytes are all visible and that is as long as a row.
pub fn next_word_row(bytes: &[u8], from: usize, to: usize) -> usize
    requires ordered { from ≤ to }
    requires within { to ≤ length bytes.now }
    ensures { IsNextRow (is_stranger bytes.now) (length bytes.now) from to result }
{
    next_row(&StrangerTest, bytes, from, to)
}
