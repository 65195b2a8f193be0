// What a scan asks of whatever reads the texts of patterns.
ghost use Rattle.std.specs.Prelude.{◌≡◌, ℕ, List, Bool, IsTrue, IfOk};
ghost use Rattle.pattern_kit.specs.Building.{Refusals, IsBuild};

use crate::Matcher;
use std::alloc::Global;
use thiserror::Error;

/// Why a kit did not build a matcher.
#[derive(Clone, Copy, Debug, PartialEq, Eq, Error)]
pub enum KitFault {
    /// The kit does not read this text, and has counted a refusal.
    #[error("pattern refused")]
    Refused,
    /// The allocator had no room.
    #[error("no memory")]
    NoMemory,
}

/// What builds the matchers of patterns.
pub trait Kit {
    /// The matchers that it builds.
    type M: Matcher;

    /// Which texts may be handed in at which index; never changes.
    ghost may_build: { Self → ℕ → List ℕ → Bool };

    /// How many texts were refused, and the index of the last one.
    ghost refusals: { Self → Refusals };

    /// Builds the matcher of a pattern by its text. The index is the pattern's number, from 0.
    fn build(&mut self, alloc: Global, index: u32, text: &str) -> Result<Self::M, KitFault>
        requires asked { IsTrue (may_build self.old index text.now) }
        ensures same { may_build self.new ≡ may_build self.old }
        ensures ok { IfOk result (λ matcher. Self.M.reads text.now (Self.M.reading matcher)) }
        ensures cause { IsBuild (refusals self.old) (refusals self.new) index result };
}
