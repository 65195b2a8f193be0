// What a kit counts.
ghost use Rattle.std.specs.Prelude.{◌≡◌, ◌≤◌};
ghost use Rattle.pattern_kit.specs.Building.{no_refusals, refused_at};

use std::marker::Model;

// How many texts were refused, up to 2^64 - 1, where the count stands still, and the index of the last one.
#[derive(Drop)]
pub struct RefusalCount {
    count: u64,
    last: Option<u32>,
}

impl Model for RefusalCount {
    ghost use Rattle.pattern_kit.specs.Building.{Refusals};

    ghost Value = { Refusals };

    ghost view = { λ refusals. record { count = refusals.count; last = refusals.last } };
}

impl RefusalCount {
    // None so far.
    pub fn none() -> RefusalCount
        ensures { result ≡ no_refusals }
    {
        RefusalCount {
            count: 0,
            last: None,
        }
    }

    // Counts a refusal.
    pub fn add(&mut self, index: u32)
        ensures later { self.old.count ≤ self.new.count }
        ensures counted { self.new ≡ refused_at self.old index }
    {
        self.count = self.count.saturating_add(1);
        self.last = Some(index);
    }

    // How many there were.
    pub fn count(&self) -> u64
        ensures { result ≡ self.now.count }
    {
        self.count
    }

    // The index of the last one.
    pub fn last(&self) -> Option<u32>
        ensures { result ≡ self.now.last }
    {
        self.last
    }
}
