// Patterns in the syntax of the `regex` crate, over bytes.
ghost use Rattle.std.specs.Prelude.{◌≡◌, true, IfOk};
ghost use Rattle.pattern_kit.specs.Building.{no_refusals, IsBuild};
ghost use Rattle.pattern_kit.specs.Meanings.{HaveOneMeaning};
ghost use Rattle.pattern_kit.specs.Readings.{HasReading, match_at_front};

use crate::passing::passing_of;
use crate::refusals::RefusalCount;
use crate::{Kit, KitFault, Matcher, RegexMatcher};
use regex::Error;
use regex::bytes::Regex;
use std::alloc::Global;
use std::marker::Model;

/// A kit that reads texts in the syntax of the `regex` crate, with its default options over bytes: Unicode
/// is on, and a match need not be UTF-8. It refuses a text that this crate refuses: one that is no pattern,
/// nests too deep, or needs too much room when compiled.
///
/// Each place sees the at most [`PATTERN_REACH`](crate::PATTERN_REACH) bytes from it on and none ahead of
/// it, so `^` holds at each place, and `$` at the end of what the place sees.
#[derive(Drop)]
pub struct RegexKit {
    refusals: RefusalCount,
}

impl Model for RegexKit {
    ghost use Rattle.pattern_kit.specs.Building.{Refusals};

    ghost Value = { Refusals };

    ghost view = { λ kit. kit.refusals };
}

impl RegexKit {
    /// A kit that has refused nothing so far. Each text has one meaning: whatever the crate's grammar reads
    /// in it, the same bytes are matched alike.
    pub fn make() -> RegexKit
        ensures none { result ≡ no_refusals }
        ensures meaning { HaveOneMeaning HasReading match_at_front }
    {
        RegexKit {
            refusals: RefusalCount::none(),
        }
    }

    /// How many texts were refused. The count stands still at 2^64 - 1.
    pub fn refusals(&self) -> u64
        ensures { result ≡ self.now.count }
    {
        self.refusals.count()
    }

    /// The index of the text that was refused last.
    pub fn last_refusal(&self) -> Option<u32>
        ensures { result ≡ self.now.last }
    {
        self.refusals.last()
    }
}

impl Kit for RegexKit {
    ghost use Rattle.pattern_kit.specs.RegexMatchers.{pattern_read};

    type M = RegexMatcher;

    ghost may_build = { λ kit index text. true };

    ghost refusals = { λ kit. kit };

    fn build(&mut self, alloc: Global, index: u32, text: &str) -> Result<RegexMatcher, KitFault>
        ensures ok { IfOk result (λ matcher. HasReading text.now (pattern_read matcher)) }
        ensures cause { IsBuild self.old self.new index result }
    {
        match Regex::new(alloc, text) {
            Ok(regex) => Ok(RegexMatcher {
                regex,
                passing: passing_of(alloc, text),
            }),
            Err(Error::OutOfMemory) => Err(KitFault::NoMemory),
            Err(_) => {
                self.refusals.add(index);
                Err(KitFault::Refused)
            }
        }
    }
}
