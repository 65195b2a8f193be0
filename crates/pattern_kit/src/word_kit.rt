// Words in place of patterns, in memory, for tests.
ghost use Rattle.std.specs.Prelude.{◌≡◌, ℕ, ◌+◌, ◌≤◌, List, length, IsTrue, IsErrOf, ◌↔◌, true, IfOk, OnOk};
ghost use Rattle.pattern_kit.specs.Matching.{length_at, AreLengths};
ghost use Rattle.pattern_kit.specs.Building.{IsBuild};
ghost use Rattle.pattern_kit.specs.Meanings.{HaveOneMeaning};
ghost use Rattle.pattern_kit.specs.Words.{word_length, IsItself, no_builds, is_refused};

use crate::judge::{Judge, fill_each, seen};
use crate::refusals::RefusalCount;
use crate::{Kit, KitFault, Matcher};
use byte_kit::{Bytes, NoMemory};
use std::alloc::Global;
use std::marker::Model;

/// A kit in memory, for tests. It reads each text as itself, and its matchers look for the bytes of the
/// text. It refuses a build exactly where it was told to. The count of refusals stands still at 2^64 - 1.
#[derive(Drop)]
pub struct WordKit {
    refused: u8,
    refusals: RefusalCount,
}

impl Model for WordKit {
    ghost use Rattle.pattern_kit.specs.Words.{WordBuilds};

    ghost Value = { WordBuilds };

    ghost view = { λ kit. record { refused = kit.refused; refusals = kit.refusals } };
}

impl WordKit {
    /// A kit that has built nothing so far. It refuses the build of an index from 0 to 7 where that bit of
    /// `refused` is set, bit 0 being the lowest, and no other. Each text has one meaning.
    pub fn make(refused: u8) -> WordKit
        ensures none { result ≡ no_builds refused }
        ensures meaning { HaveOneMeaning IsItself word_length }
    {
        WordKit {
            refused,
            refusals: RefusalCount::none(),
        }
    }

    /// How many texts were refused. The count stands still at 2^64 - 1.
    pub fn refusals(&self) -> u64
        ensures { result ≡ self.now.refusals.count }
    {
        self.refusals.count()
    }

    /// The index of the text that was refused last.
    pub fn last_refusal(&self) -> Option<u32>
        ensures { result ≡ self.now.refusals.last }
    {
        self.refusals.last()
    }

    // Whether a build of this index is to be refused.
    fn is_due(&self, index: u32) -> bool
        ensures { result ≡ is_refused self.now.refused index }
    {
        index < 8 && self.refused >> index & 1 == 1
    }
}

impl Kit for WordKit {
    type M = WordMatcher;

    ghost may_build = { λ kit index text. true };

    ghost refusals = { λ kit. kit.refusals };

    fn build(&mut self, alloc: Global, index: u32, text: &str) -> Result<WordMatcher, KitFault>
        ensures ok { IfOk result (λ matcher. IsItself text.now matcher) }
        ensures cause { IsBuild self.old.refusals self.new.refusals index result }
        ensures refused { IsErrOf result KitFault.Refused ↔ IsTrue (is_refused self.old.refused index) }
        ensures kept { self.new.refused ≡ self.old.refused }
    {
        if self.is_due(index) {
            self.refusals.add(index);
            return Err(KitFault::Refused);
        }
        match Bytes::copy(alloc, text.as_bytes()) {
            Ok(word) => Ok(WordMatcher { word }),
            Err(_) => Err(KitFault::NoMemory),
        }
    }
}

/// Looks for a word: at each place where all of its bytes stand, its length.
#[derive(Drop)]
pub struct WordMatcher {
    word: Bytes,
}

impl Model for WordMatcher {
    ghost use Rattle.std.specs.Prelude.{ℕ, List};

    ghost Value = { List ℕ };

    ghost view = { λ matcher. matcher.word };
}

// The word of a matcher, lent for one call.
#[derive(Drop)]
struct WordJudge<'w> {
    word: &'w [u8],
}

impl<'w> Judge for WordJudge<'w> {
    ghost judged = { λ judge. word_length judge.word.now };

    fn front_len(&mut self, bytes: &[u8]) -> u32 {
        if seen(bytes).starts_with(self.word) {
            return self.word.len() as u32;
        }
        0
    }
}

impl Matcher for WordMatcher {
    ghost use Rattle.std.specs.Prelude.{ℕ, List};
    ghost use Rattle.pattern_kit.specs.Bounds.{word_bounded};

    ghost Reading = { List ℕ };

    ghost reading = { λ matcher. matcher };

    ghost matches = { word_length };

    ghost reads = { IsItself };

    ghost bounded = { word_bounded };

    fn lens_at(
        &mut self,
        _alloc: Global,
        bytes: &[u8],
        from: usize,
        lens: &mut [u32],
    ) -> Result<(), NoMemory> {
        let mut judge = WordJudge {
            word: self.word.as_slice(),
        };
        fill_each(&mut judge, bytes, from, lens);
        Ok(())
    }
}
