// A source in memory, for tests: it tells what it holds, and fails where it is told to.
ghost use Rattle.std.specs.Prelude.{◌≡◌, ◌^◌, ◌<◌, ◌⊎◌, ◌↔◌, ℕ, length, replicate, None, IsErr, IfOk, OnOk, OnErr, position};
ghost use Rattle.byte_kit.specs.Calls.{no_calls, with_failing};
ghost use Rattle.byte_kit.specs.Counts.{CountsFault};
ghost use Rattle.host_source.specs.Calls.{IsDue, IsCall};
ghost use Rattle.host_source.specs.Source.{told, HoldsNothing, AddsName, IsDetached, Attaches, IsWithin, Reads};
ghost use Rattle.host_source.specs.Entries.{is_named, AreApart, PointInside};

use crate::entry::Entry;
use crate::{Source, SourceFault};
use byte_kit::{Calls, NoMemory};
use std::alloc::Global;

/// A call of the trait `Source` with its numbers: the slot, the place in bytes and the count of bytes.
#[derive(Clone, Copy, Debug, PartialEq, Eq)]
pub enum SourceCall {
    Attach { slot: u32 },
    Read { slot: u32, at: u64, bytes: u64 },
}

/// Names with bytes, held in memory. Every name may be asked for; to attach one that isn't there is a
/// counted fault. All calls of the trait are counted together from 0 on, and those that `fail_calls`
/// names fail: such a call counts a fault and changes nothing else. All counts stand still at 2^64 - 1.
#[derive(Drop)]
pub struct MemSource {
    alloc: Global,
    entries: Vec<Entry>,
    places: [Option<usize>; 64],
    calls: Calls<SourceCall>,
    ghost apart: { AreApart entries.items },
    ghost inside: { PointInside entries.items places },
}

impl MemSource {
    ghost use Rattle.host_source.specs.MemSource.{mem_nature, mem_slots, mem_calls};

    /// A source that holds no name. It takes no memory.
    pub fn make(alloc: Global) -> MemSource
        ensures empty { HoldsNothing (mem_nature result) }
        ensures detached { IsDetached (mem_slots result) }
        ensures calls { mem_calls result ≡ no_calls }
    {
        MemSource {
            alloc,
            entries: Vec::new(alloc),
            places: [None; 64],
            calls: Calls::make(alloc),
        }
    }

    /// Adds a name that isn't there yet, with its bytes. It is no call of the trait. Refused for want of
    /// memory, it adds none.
    pub fn add(&mut self, name: &str, bytes: &[u8]) -> Result<(), NoMemory>
        requires absent { told (mem_nature self.old) name.now ≡ None }
        requires small { length bytes.now < 2 ^ 57 }
        ensures added { OnOk result (AddsName (mem_nature self.old) (mem_nature self.new) name.now bytes.now) }
        ensures same { OnErr result (mem_nature self.new ≡ mem_nature self.old) }
        ensures slots { (slot : ℕ) → mem_slots self.new slot ≡ mem_slots self.old slot }
        ensures calls { mem_calls self.new ≡ mem_calls self.old }
    {
        let entry = Entry::copy(self.alloc, name, bytes)?;
        self.entries.push(entry)?;
        Ok(())
    }

    /// Adds a name that isn't there yet, which holds one byte so many times. The bytes themselves are not
    /// kept, so there may be more of them than memory holds. It is no call of the trait. Refused for want
    /// of memory, it adds none.
    pub fn add_filled(&mut self, name: &str, size: u64, fill: u8) -> Result<(), NoMemory>
        requires absent { told (mem_nature self.old) name.now ≡ None }
        requires small { size < 2 ^ 57 }
        ensures added { OnOk result (AddsName (mem_nature self.old) (mem_nature self.new) name.now (replicate size fill)) }
        ensures same { OnErr result (mem_nature self.new ≡ mem_nature self.old) }
        ensures slots { (slot : ℕ) → mem_slots self.new slot ≡ mem_slots self.old slot }
        ensures calls { mem_calls self.new ≡ mem_calls self.old }
    {
        let entry = Entry::filled(self.alloc, name, size, fill)?;
        self.entries.push(entry)?;
        Ok(())
    }

    /// The calls of the trait so far, in their order and with those that failed, for a test to read.
    /// No contract speaks of this list: a call for which there was no room is not in it.
    pub fn calls(&self) -> &[SourceCall] {
        self.calls.list()
    }

    /// Names further calls that are to fail. The first call of the trait is number 0. Refused for want
    /// of memory, it names none.
    pub fn fail_calls(&mut self, calls: &[u64]) -> Result<(), NoMemory>
        ensures named { OnOk result (mem_calls self.new ≡ with_failing (mem_calls self.old) calls.now) }
        ensures same { OnErr result (mem_calls self.new ≡ mem_calls self.old) }
        ensures nature { mem_nature self.new ≡ mem_nature self.old }
        ensures slots { (slot : ℕ) → mem_slots self.new slot ≡ mem_slots self.old slot }
    {
        self.calls.fail(calls)
    }
}

// Counts and keeps a call of the trait, and fails it where it is due.
fn begin(calls: &mut Calls<SourceCall>, call: SourceCall) -> Result<(), SourceFault>
    ensures failed { IsErr result ↔ IsDue calls.old }
    ensures call { IsCall calls.old calls.new result }
    ensures cause { CountsFault calls.old.faults calls.new.faults result }
{
    if calls.begin(call) {
        return Err(SourceFault);
    }
    Ok(())
}

// The place of the entry of that name.
fn place_of(entries: &[Entry], name: &str) -> Option<usize>
    ensures { result ≡ position (is_named name.now) entries.now }
{
    entries.iter().position(|entry| name == entry.name.as_str())
}

impl Source for MemSource {
    ghost use Rattle.host_source.specs.MemSource.{mem_nature, mem_slots, mem_calls, mem_faults};

    ghost nature = { mem_nature };

    ghost slots = { mem_slots };

    ghost faults = { mem_faults };

    fn attach(&mut self, slot: u32, name: &str) -> Result<u64, SourceFault>
        requires below { slot < 64 }
        requires free { mem_slots self.old slot ≡ None }
        ensures same { mem_nature self.new ≡ mem_nature self.old }
        ensures ok { IfOk result (Attaches (mem_nature self.old) (mem_slots self.old) (mem_slots self.new) slot name.now) }
        ensures err { OnErr result (mem_slots self.new ≡ mem_slots self.old) }
        ensures failed { IsErr result ↔ (IsDue (mem_calls self.old) ⊎ (told (mem_nature self.old) name.now ≡ None)) }
        ensures call { IsCall (mem_calls self.old) (mem_calls self.new) result }
        ensures cause { CountsFault (mem_faults self.old) (mem_faults self.new) result }
    {
        begin(&mut self.calls, SourceCall::Attach { slot })?;
        let Some(place) = place_of(&self.entries, name) else {
            self.calls.fault();
            return Err(SourceFault);
        };
        self.places[slot as usize] = Some(place);
        Ok(self.entries[place].size())
    }

    fn read_at(&mut self, slot: u32, at: u64, into: &mut [u8]) -> Result<(), SourceFault>
        requires within { IsWithin (mem_slots self.old) slot at (length into.old) }
        ensures same { mem_nature self.new ≡ mem_nature self.old }
        ensures slots { mem_slots self.new ≡ mem_slots self.old }
        ensures ok { OnOk result (Reads (mem_nature self.old) (mem_slots self.old) slot at into.new) }
        ensures failed { IsErr result ↔ IsDue (mem_calls self.old) }
        ensures call { IsCall (mem_calls self.old) (mem_calls self.new) result }
        ensures cause { CountsFault (mem_faults self.old) (mem_faults self.new) result }
    {
        let bytes = into.len() as u64;
        begin(&mut self.calls, SourceCall::Read { slot, at, bytes })?;
        let place = self.places[slot as usize].unwrap();
        self.entries[place].bytes.read_at(at, into);
        Ok(())
    }
}
