// How far a search for the next match looks. A search costs much where it finds something at each place,
// and where what it finds lies far off and is no match: then places are judged one by one for a while.
ghost use Rattle.std.specs.Prelude.{◌<◌, ◌≤◌};
ghost use Rattle.pattern_kit.specs.declared.pace.TheConstants.{FAR};

// How far the first search looks, and each one behind a match.
const NEAR: usize = 64;

// How far a search looks at most.
pub const FAR: usize = 8192;

// How many places behind a match are judged one by one.
const BEHIND_A_MATCH: usize = 4;

// How many places are judged one by one where a search was in vain, at first and at most.
const FIRST_PAUSE: usize = 3;

const LONGEST_PAUSE: usize = 65535;

// The pace of the searches of one call.
#[derive(Clone, Copy)]
pub struct Pace {
    // How far the next search looks.
    reach: usize,
    // How many places are judged one by one behind the next search that is in vain.
    pause: usize,
    // How many places are still judged one by one.
    left: usize,
    ghost some: { 0 < reach },
    ghost few: { reach ≤ FAR },
}

impl Pace {
    pub fn start() -> Pace {
        Pace::behind(0, FIRST_PAUSE)
    }

    // Judges `left` places one by one, and then begins anew.
    fn behind(left: usize, pause: usize) -> Pace {
        Pace {
            reach: NEAR,
            pause,
            left,
        }
    }

    // How many places the next search may pass at most.
    pub fn reach(&self) -> usize
        ensures some { 0 < result }
        ensures few { result ≤ FAR }
    {
        if self.left > 0 {
            return 1;
        }
        self.reach
    }

    // The pace behind a search that passed so many places and found a match of this length, or none.
    pub fn after(self, passed: usize, length: u32) -> Pace {
        if length > 0 {
            return Pace::behind(BEHIND_A_MATCH, FIRST_PAUSE);
        }
        if self.left > 0 {
            return Pace::behind(self.left - 1, self.pause);
        }
        if passed >= self.reach {
            return Pace {
                reach: FAR.min(self.reach * 4),
                pause: FIRST_PAUSE,
                left: 0,
            };
        }
        if passed >= NEAR {
            return Pace::behind(0, FIRST_PAUSE);
        }
        self.paused()
    }

    // The pace behind a search that found something near, which is no match.
    fn paused(self) -> Pace {
        Pace::behind(
            self.pause,
            LONGEST_PAUSE.min(self.pause.saturating_mul(4).saturating_add(3)),
        )
    }
}
