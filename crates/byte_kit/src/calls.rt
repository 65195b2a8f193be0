// The calls of an object that fails on demand.
ghost use Rattle.std.specs.Prelude.{◌≡◌, ◌≤◌, OnOk, OnErr};
ghost use Rattle.byte_kit.specs.Calls.{no_calls, is_due, after_begin, after_fault, with_failing};

use crate::NoMemory;
use std::alloc::Global;
use std::marker::Model;

/// The calls of an object that fails on demand, as tests want it. The calls are numbered from 0 on,
/// the number and the count of faults stand still at 2^64 - 1, and the calls that were named fail.
///
/// The calls are kept too, each as a `C`, for a test to read. No contract speaks of that list: a call
/// for which there is no room is not kept, and nothing else is changed by that.
#[derive(Drop)]
pub struct Calls<C> {
    made: u64,
    failing: Vec<u64>,
    faults: u64,
    list: Vec<C>,
}

impl<C> Model for Calls<C> {
    ghost use Rattle.byte_kit.specs.Calls.{CallPlan};

    ghost Value = { CallPlan };

    ghost view = { λ c. record { made = c.made; failing = c.failing.items; faults = c.faults } };
}

impl<C: Drop> Calls<C> {
    /// No call so far, and none that is to fail. It takes no memory.
    pub fn make(alloc: Global) -> Calls<C>
        ensures { result ≡ no_calls }
    {
        Calls {
            made: 0,
            failing: Vec::new(alloc),
            faults: 0,
            list: Vec::new(alloc),
        }
    }

    /// Names further calls that are to fail. Refused for want of memory, it names none.
    pub fn fail(&mut self, calls: &[u64]) -> Result<(), NoMemory>
        ensures named { OnOk result (self.new ≡ with_failing self.old calls.now) }
        ensures same { OnErr result (self.new ≡ self.old) }
    {
        self.failing.extend_from_slice(calls)?;
        Ok(())
    }

    /// Counts a call and keeps it, and says whether it is to fail. Where it is, its fault is counted.
    pub fn begin(&mut self, call: C) -> bool
        ensures due { result ≡ is_due self.old }
        ensures plan { self.new ≡ after_begin self.old }
        ensures later { self.old.faults ≤ self.new.faults }
    {
        let is_due = self.failing.contains(&self.made);
        self.made = self.made.saturating_add(1);
        if is_due {
            self.faults = self.faults.saturating_add(1);
        }
        let _ = self.list.push(call);
        is_due
    }

    /// Counts the fault of a call that fails though it was not told to.
    pub fn fault(&mut self)
        ensures plan { self.new ≡ after_fault self.old }
        ensures later { self.old.faults ≤ self.new.faults }
    {
        self.faults = self.faults.saturating_add(1);
    }

    /// The calls so far, in their order, as far as there was room to keep them.
    pub fn list(&self) -> &[C] {
        self.list.as_slice()
    }
}
