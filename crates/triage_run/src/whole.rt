// All bytes of what a slot has attached.
ghost use Rattle.std.specs.Prelude.{◌≡◌, ◌<◌, length, IfOk, OnOk, IfErr, IfSome, IsSomeAnd};
ghost use Rattle.host_source.specs.Source.{told_at};
ghost use Rattle.triage_run.specs.Kept.{KeepsSource};
ghost use Rattle.triage_run.specs.Whole.{IsReadCause};

use host_source::Source;
use std::alloc::Global;

/// Why bytes were not read.
#[derive(Clone, Copy, Debug, PartialEq, Eq)]
pub enum ReadEnd {
    /// The source failed.
    Fault,
    /// The allocator had no room.
    NoMemory,
}

/// All bytes of what the slot has attached, which are so many. Where there are none, nothing is read.
pub fn read_whole<S: Source>(
    alloc: Global,
    source: &mut S,
    slot: u32,
    size: u64,
) -> Result<Vec<u8>, ReadEnd>
    requires attached { IsSomeAnd (S.slots source.old slot) (λ s. size ≡ s.size) }
    requires told { IfSome (told_at (S.nature source.old) (S.slots source.old) slot) (λ bytes. size ≡ length bytes) }
    ensures source { KeepsSource S.nature S.faults source.old source.new }
    ensures slots { S.slots source.new ≡ S.slots source.old }
    ensures bytes { IfOk result (λ read. IfSome (told_at (S.nature source.old) (S.slots source.old) slot) (λ bytes. read.items ≡ bytes)) }
    ensures sure { OnOk result (S.faults source.new ≡ S.faults source.old) }
    ensures cause { IfErr result (IsReadCause size (S.faults source.old) (S.faults source.new)) }
{
    let mut read = Vec::new(alloc);
    if read.resize(size as usize, 0).is_err() {
        return Err(ReadEnd::NoMemory);
    }
    if size == 0 {
        return Ok(read);
    }
    match source.read_at(slot, 0, read.as_mut_slice()) {
        Ok(()) => Ok(read),
        Err(_) => Err(ReadEnd::Fault),
    }
}
