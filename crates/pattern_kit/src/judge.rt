// The lengths at many places, each judged by itself.
ghost use Rattle.std.specs.Prelude.{◌≡◌, ℕ, ◌+◌, ◌≤◌, List, length, take, Option};
ghost use Rattle.pattern_kit.specs.Matching.{length_at, AreLengths};

use crate::PATTERN_REACH;

// What gives the length of a match at the front of some bytes.
pub trait Judge {
    // How many bytes are matched at the front of some bytes, if there is a match.
    ghost judged: { Self → List ℕ → Option ℕ };

    // The length of the match at the first place, of at least 1 byte, and 0 where there is none.
    fn front_len(&mut self, bytes: &[u8]) -> u32
        ensures same { judged self.new ≡ judged self.old }
        ensures length { result ≡ length_at (judged self.old) bytes.now 0 };
}

// The first `most` bytes, or all where there are fewer.
pub fn front(bytes: &[u8], most: usize) -> &[u8]
    ensures bytes { result.now ≡ take most bytes.now }
    ensures few { length result.now ≤ most }
{
    if bytes.len() <= most {
        return bytes;
    }
    let (front, _) = bytes.split_at(most);
    front
}

// What a place sees of the bytes from it on.
pub fn seen(bytes: &[u8]) -> &[u8]
    ensures bytes { result.now ≡ take PATTERN_REACH bytes.now }
    ensures few { length result.now ≤ PATTERN_REACH }
{
    front(bytes, PATTERN_REACH)
}

// Judges each place.
pub fn fill_each<J: Judge>(judge: &mut J, bytes: &[u8], from: usize, lens: &mut [u32])
    requires within { from + length lens.old ≤ length bytes.now }
    ensures same { J.judged judge.new ≡ J.judged judge.old }
    ensures lengths { AreLengths (J.judged judge.old) bytes.now from lens.new }
{
    for at in 0..lens.len() {
        let (_, rest) = bytes.split_at(from + at);
        lens[at] = judge.front_len(rest);
    }
}
