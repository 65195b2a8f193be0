// What may be given to a search.
ghost use Rattle.std.specs.Prelude.{◌≤◌, length, IsTrue};
ghost use Rattle.std.specs.List.{All};
ghost use Rattle.scan_find.specs.Marks.{IsText};
ghost use Rattle.scan_find.specs.declared.TheConstants.{KEYWORDS_MOST, TEXT_MOST};

use crate::{KEYWORDS_MOST, TEXT_MOST};
use byte_kit::Bytes;

/// Whether a search takes these keywords: at most `KEYWORDS_MOST`, each of 1 to `TEXT_MOST` bytes.
pub fn are_keywords(keywords: &[Bytes]) -> bool
    ensures few { IsTrue result → length keywords.now ≤ KEYWORDS_MOST }
    ensures texts { IsTrue result → All IsText keywords.now }
    ensures no_others { length keywords.now ≤ KEYWORDS_MOST → All IsText keywords.now → IsTrue result }
{
    for k in 0..keywords.len() {
        if !is_text(&keywords[k]) {
            return false;
        }
    }
    keywords.len() <= KEYWORDS_MOST
}

// Whether it has 1 to `TEXT_MOST` bytes.
fn is_text(keyword: &Bytes) -> bool
    ensures yes { IsTrue result → IsText keyword.now }
    ensures no { IsText keyword.now → IsTrue result }
{
    let length = keyword.as_slice().len();
    1 <= length && length <= TEXT_MOST
}
