// What a scan asks of whatever matches a pattern.
ghost use Rattle.std.specs.Prelude.{◌≡◌, ℕ, ◌+◌, ◌≤◌, List, length, Option, IfSome, OnOk};
ghost use Rattle.pattern_kit.specs.Matching.{AreLengths};

use byte_kit::NoMemory;
use std::alloc::Global;

/// A pattern that was read. Its calls may change it, as a search changes what it keeps for the next one,
/// but never what it matches.
pub trait Matcher: Drop {
    /// What a text may be read as.
    ghost Reading: { Type 0 };

    /// What the text of this matcher was read as.
    ghost reading: { Self → Reading };

    /// How many bytes a reading matches at the front of some bytes, if it matches there.
    ghost matches: { Reading → List ℕ → Option ℕ };

    /// Which readings a text has.
    ghost reads: { List ℕ → Reading → Type 0 };

    /// A match has no more bytes than there are.
    ghost bounded: { (reading : Reading) (bytes : List ℕ) → IfSome (matches reading bytes) (λ count. count ≤ length bytes) };

    /// Gives for each of the places `from + k` of the bytes the length of the match there: of at least 1
    /// byte, and 0 where there is none. A place sees the at most `PATTERN_REACH` bytes from it on. Its one
    /// refusal is want of memory, after which `lens` holds any numbers.
    ///
    /// A call has a cost of its own: ask for thousands of places at once.
    fn lens_at(
        &mut self,
        alloc: Global,
        bytes: &[u8],
        from: usize,
        lens: &mut [u32],
    ) -> Result<(), NoMemory>
        requires within { from + length lens.old ≤ length bytes.now }
        ensures same { reading self.new ≡ reading self.old }
        ensures ok { OnOk result (AreLengths (matches (reading self.old)) bytes.now from lens.new) };
}
