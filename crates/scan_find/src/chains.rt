// The keywords that begin with the same byte, chained in their order: a place is judged by those alone
// that begin with its byte.
ghost use Rattle.std.specs.Prelude.{◌≡◌, ◌+◌, ◌-◌, ◌<◌, ◌≤◌, length, slice_index, slice_index_or};
ghost use Rattle.std.specs.List.{All};
ghost use Rattle.scan_find.specs.Chains.{IsNextWith, AreChained};
ghost use Rattle.scan_find.specs.Marks.{IsText};
ghost use Rattle.scan_find.specs.declared.TheConstants.{KEYWORDS_MOST};

use crate::KEYWORDS_MOST;
use byte_kit::Bytes;

// Indexes of keywords. At the end of a chain stands how many there are.
#[derive(Clone, Copy)]
pub(crate) struct Chains {
    heads: [u8; 256],
    nexts: [u8; KEYWORDS_MOST],
}

impl Chains {
    // The chains of these keywords.
    pub(crate) fn of(keywords: &[Bytes]) -> Chains
        requires few { length keywords.now ≤ KEYWORDS_MOST }
        requires texts { All IsText keywords.now }
        ensures { AreChained keywords.now result.heads result.nexts }
    {
        let mut heads = [keywords.len() as u8; 256];
        let mut nexts = [0; KEYWORDS_MOST];
        for behind in 0..keywords.len() {
            let which = keywords.len() - 1 - behind;
            let byte = first_byte(&keywords[which]) as usize;
            nexts[which] = heads[byte];
            heads[byte] = which as u8;
        }
        Chains { heads, nexts }
    }

    // The first keyword that begins with the byte.
    #[inline(always)]
    pub(crate) fn first(&self, byte: u8) -> usize
        ensures { result ≡ slice_index self.now.heads byte }
    {
        self.heads[byte as usize] as usize
    }

    // The next one that begins with the same byte as this one.
    #[inline(always)]
    pub(crate) fn next(&self, which: usize) -> usize
        requires { which < KEYWORDS_MOST }
        ensures { result ≡ slice_index self.now.nexts which }
    {
        self.nexts[which] as usize
    }
}

// The first byte of a keyword.
fn first_byte(keyword: &Bytes) -> u8
    requires { 1 ≤ length keyword.now }
    ensures { result ≡ slice_index keyword.now 0 }
{
    keyword.as_slice()[0]
}
