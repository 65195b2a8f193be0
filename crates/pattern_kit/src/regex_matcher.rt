// The matcher of a pattern of the `regex` crate.
ghost use Rattle.std.specs.Prelude.{◌≡◌, ◌+◌, ◌≤◌, length, OnOk};
ghost use Rattle.regex.specs.Bytes.{regex_pattern, matcher_pattern};
ghost use Rattle.regex_meta.specs.Programs.{pattern_of};
ghost use Rattle.pattern_kit.specs.Matching.{length_at, AreLengths};
ghost use Rattle.pattern_kit.specs.Passing.{first_start, IsSieve, MayPass};
ghost use Rattle.pattern_kit.specs.Readings.{HasReading, match_at_front};

use crate::Matcher;
use crate::judge::{Judge, fill_each, seen};
use crate::passing::{Passing, Sieve};
use crate::search::{Seeker, fill_by_search};
use byte_kit::NoMemory;
use regex::bytes::{self, Regex};
use regex_meta::Searcher;
use std::alloc::{AllocError, Global};

/// A pattern that was read by the `regex` crate, and what searches for it.
///
/// A call makes anew what the searches write to, and one search passes up to some thousand places at which
/// there is no match: ask for 16,384 places or more at once.
#[derive(Drop)]
pub struct RegexMatcher {
    pub(crate) regex: Regex,
    pub(crate) passing: Passing,
    ghost passes: { MayPass (regex_pattern regex) passing },
}

// The length of the match at the first place, of at least 1 byte, and 0 where there is none.
fn front_len(matcher: &mut bytes::Matcher<'_>, bytes: &[u8]) -> u32
    ensures same { matcher_pattern matcher.new ≡ matcher_pattern matcher.old }
    ensures length { result ≡ length_at (match_at_front (matcher_pattern matcher.old)) bytes.now 0 }
{
    match matcher.find(seen(bytes)) {
        Some(found) => {
            if found.start() == 0 {
                return found.end() as u32;
            }
            0
        }
        None => 0,
    }
}

impl<'r> Judge for bytes::Matcher<'r> {
    ghost judged = { λ matcher. match_at_front (matcher_pattern matcher) };

    fn front_len(&mut self, bytes: &[u8]) -> u32 {
        front_len(self, bytes)
    }
}

impl<'r> Seeker for bytes::Matcher<'r> {
    ghost judged = { λ matcher. match_at_front (matcher_pattern matcher) };

    ghost sought = { λ matcher. first_start (matcher_pattern matcher) };

    fn judge(&mut self, bytes: &[u8]) -> u32 {
        front_len(self, bytes)
    }

    fn first_start(&mut self, bytes: &[u8]) -> Option<usize> {
        match self.find(bytes) {
            Some(found) => Some(found.start()),
            None => None,
        }
    }
}

// A pattern with assertions, beside the same one without them.
struct Sieved<'s, 'r> {
    search: Searcher<'s>,
    matcher: bytes::Matcher<'r>,
}

impl<'s, 'r> Drop for Sieved<'s, 'r> {
    fn drop(self) {
        let Sieved {
            search: _search,
            matcher: _matcher,
        } = self;
    }
}

impl<'s, 'r> Seeker for Sieved<'s, 'r> {
    ghost judged = { λ sieved. match_at_front (matcher_pattern sieved.matcher) };

    ghost sought = { λ sieved. first_start (pattern_of sieved.search.program.now) };

    fn judge(&mut self, bytes: &[u8]) -> u32 {
        front_len(&mut self.matcher, bytes)
    }

    fn first_start(&mut self, bytes: &[u8]) -> Option<usize> {
        match self.search.find(bytes, 0) {
            Some(found) => Some(found.0),
            None => None,
        }
    }
}

// The lengths by searches for the pattern itself.
fn fill_by_itself(
    alloc: Global,
    regex: &Regex,
    bytes: &[u8],
    from: usize,
    lens: &mut [u32],
) -> Result<(), AllocError>
    requires within { from + length lens.old ≤ length bytes.now }
    requires sieve { IsSieve (first_start (regex_pattern regex.now)) (match_at_front (regex_pattern regex.now)) }
    ensures { OnOk result (AreLengths (match_at_front (regex_pattern regex.now)) bytes.now from lens.new) }
{
    let mut matcher = regex.matcher(alloc)?;
    fill_by_search(&mut matcher, bytes, from, lens);
    Ok(())
}

// The lengths by searches for the pattern without its assertions.
fn fill_by_sieve(
    alloc: Global,
    regex: &Regex,
    sieve: &Sieve,
    bytes: &[u8],
    from: usize,
    lens: &mut [u32],
) -> Result<(), AllocError>
    requires within { from + length lens.old ≤ length bytes.now }
    requires sieve { IsSieve (first_start (pattern_of sieve.now.program)) (match_at_front (regex_pattern regex.now)) }
    ensures { OnOk result (AreLengths (match_at_front (regex_pattern regex.now)) bytes.now from lens.new) }
{
    let matcher = regex.matcher(alloc)?;
    let search = Searcher::new(alloc, &sieve.program)?;
    let mut sieved = Sieved { search, matcher };
    fill_by_search(&mut sieved, bytes, from, lens);
    Ok(())
}

// The lengths, each place judged.
pub fn fill_one_by_one(
    alloc: Global,
    regex: &Regex,
    bytes: &[u8],
    from: usize,
    lens: &mut [u32],
) -> Result<(), AllocError>
    requires within { from + length lens.old ≤ length bytes.now }
    ensures { OnOk result (AreLengths (match_at_front (regex_pattern regex.now)) bytes.now from lens.new) }
{
    let mut matcher = regex.matcher(alloc)?;
    fill_each(&mut matcher, bytes, from, lens);
    Ok(())
}

impl Matcher for RegexMatcher {
    ghost use Rattle.regex.specs.Patterns.{Re};
    ghost use Rattle.pattern_kit.specs.Bounds.{regex_bounded};
    ghost use Rattle.pattern_kit.specs.RegexMatchers.{pattern_read};

    ghost Reading = { Re };

    ghost reading = { pattern_read };

    ghost matches = { match_at_front };

    ghost reads = { HasReading };

    ghost bounded = { regex_bounded };

    fn lens_at(
        &mut self,
        alloc: Global,
        bytes: &[u8],
        from: usize,
        lens: &mut [u32],
    ) -> Result<(), NoMemory> {
        match &self.passing {
            Passing::ByItself => fill_by_itself(alloc, &self.regex, bytes, from, lens)?,
            Passing::BySieve(sieve) => fill_by_sieve(alloc, &self.regex, sieve, bytes, from, lens)?,
            Passing::Never => fill_one_by_one(alloc, &self.regex, bytes, from, lens)?,
        }
        Ok(())
    }
}
