// The lengths at many places, where a search passes over places at which there is no match.
ghost use Rattle.std.specs.Prelude.{◌≡◌, ℕ, ◌+◌, ◌<◌, ◌≤◌, List, length, Option};
ghost use Rattle.std.specs.List.{slice_index};
ghost use Rattle.pattern_kit.specs.Matching.{length_at, AreLengths};
ghost use Rattle.pattern_kit.specs.Passing.{IsSieve};

use crate::PATTERN_REACH;
use crate::judge::front;
use crate::pace::{FAR, Pace};

// What judges a place, and looks for the next one at which there may be a match.
pub trait Seeker {
    // How many bytes are matched at the front of some bytes, if there is a match.
    ghost judged: { Self → List ℕ → Option ℕ };

    // Where a search of some bytes stops. It is of use where it is a sieve of what is judged.
    ghost sought: { Self → List ℕ → Option ℕ };

    // The length of the match at the first place, of at least 1 byte, and 0 where there is none.
    fn judge(&mut self, bytes: &[u8]) -> u32
        ensures same { judged self.new ≡ judged self.old }
        ensures seeks { sought self.new ≡ sought self.old }
        ensures length { result ≡ length_at (judged self.old) bytes.now 0 };

    // The first place that is found.
    fn first_start(&mut self, bytes: &[u8]) -> Option<usize>
        ensures same { judged self.new ≡ judged self.old }
        ensures seeks { sought self.new ≡ sought self.old }
        ensures found { result ≡ sought self.old bytes.now };
}

// How many places are passed, at most `reach`, and the length of the match at the last of them. There is
// none at those ahead of it.
fn next_len<S: Seeker>(seeker: &mut S, bytes: &[u8], reach: usize) -> (usize, u32)
    requires sieve { IsSieve (S.sought seeker.old) (S.judged seeker.old) }
    requires some { 0 < reach }
    requires few { reach ≤ FAR }
    ensures none { (k : ℕ) → k + 1 < result.0 → k < length bytes.now → length_at (S.judged seeker.old) bytes.now k ≡ 0 }
    ensures last { (k : ℕ) → k + 1 ≡ result.0 → k < length bytes.now → length_at (S.judged seeker.old) bytes.now k ≡ result.1 }
    ensures moves { 0 < result.0 }
    ensures within { result.0 ≤ reach }
    ensures same { S.judged seeker.new ≡ S.judged seeker.old }
    ensures seeks { S.sought seeker.new ≡ S.sought seeker.old }
{
    if reach < 2 {
        return (1, seeker.judge(bytes));
    }
    // All that each of the `reach` places sees.
    let near = front(bytes, reach + (PATTERN_REACH - 1));
    match seeker.first_start(near) {
        Some(at) => {
            let end = reach.min(bytes.len());
            if at >= end {
                return (reach, 0);
            }
            let (_, rest) = bytes.split_at(at);
            let length = seeker.judge(rest);
            (at + 1, length)
        }
        None => (reach, 0),
    }
}

fn clear(lens: &mut [u32])
    ensures { (k : ℕ) → slice_index lens.new k ≡ 0 }
{
    for len in lens.iter_mut() {
        *len = 0;
    }
}

// Searches for the next place, and judges it.
pub fn fill_by_search<S: Seeker>(seeker: &mut S, bytes: &[u8], from: usize, lens: &mut [u32])
    requires within { from + length lens.old ≤ length bytes.now }
    requires sieve { IsSieve (S.sought seeker.old) (S.judged seeker.old) }
    ensures lengths { AreLengths (S.judged seeker.old) bytes.now from lens.new }
{
    clear(lens);
    let mut done = 0;
    let mut pace = Pace::start();
    while done < lens.len() {
        let (_, rest) = bytes.split_at(from + done);
        let reach = pace.reach().min(lens.len() - done);
        let (passed, length) = next_len(seeker, rest, reach);
        lens[done + passed - 1] = length;
        done += passed;
        pace = pace.after(passed, length);
    }
}
