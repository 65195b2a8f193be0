// What a search looks for.
ghost use Rattle.std.specs.Prelude.{◌≡◌, ◌+◌, ◌<◌, ◌≤◌, ℕ, Bool, List, length};
ghost use Rattle.vector_search.specs.Places.{mask_of};

/// How many places a mask has.
pub const LANES: usize = 16;

/// A test of places, which reads a place's own byte and a few bytes behind it.
pub trait PlaceTest {
    /// Whether a place of some bytes passes. Behind their end a byte is read as 0.
    ghost passes: { Self → List ℕ → ℕ → Bool };

    /// The number that code knows as `REACH`.
    ghost REACH: { ℕ };

    /// How many bytes behind the last place of a mask the test may read.
    const REACH: usize;

    /// Bit k says whether the place `at + k` passes, for the `LANES` places from `at` on.
    fn mask(&self, bytes: &[u8], at: usize) -> u64
        requires { at + LANES + REACH ≤ length bytes.now }
        ensures { result ≡ mask_of (passes self.now bytes.now) at LANES };

    /// Whether the place passes.
    fn passes_at(&self, bytes: &[u8], place: usize) -> bool
        requires { place < length bytes.now }
        ensures { result ≡ passes self.now bytes.now place };
}
