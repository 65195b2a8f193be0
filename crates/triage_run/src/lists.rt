// The stop list and the alert list of a scan.
ghost use Rattle.std.specs.Prelude.{◌≡◌, ◌≢◌, ℕ, None, Some, IfOk, IfErr, OnOk, IfSome, IsSomeAnd, IsTrue};
ghost use Rattle.std.specs.Option.{option_copied};
ghost use Rattle.byte_kit.specs.Counts.{Rose};
ghost use Rattle.host_source.specs.Source.{IsDetached};
ghost use Rattle.triage_run.specs.Kept.{KeepsSource};
ghost use Rattle.triage_run.specs.Lists.{slot_of, place_of, bytes_told, list_told, AreReady, OnlyLists, AreListed, AreEntries, ListFits, IsListEnd, IsListsEnd};
ghost use Rattle.triage_run.specs.Sizes.{Fits};
ghost use Rattle.triage_run.specs.declared.status.List.{List as ListName};

use crate::status::{List, ReadPlace, Status};
use crate::whole::{ReadEnd, read_whole};
use crate::words::ListNames;
use byte_kit::Name;
use host_source::Source;
use std::alloc::Global;
use stop_lists::Lists;

/// The most bytes of a list that is read.
pub const LIST_MOST: u64 = 16_777_216;

impl List {
    ghost use Rattle.triage_run.specs.Lists.{slot_of, place_of};

    // The slot that it is attached to.
    fn slot(self) -> u32
        ensures { result ≡ slot_of self }
    {
        match self {
            List::Stop => 0,
            List::Alert => 1,
        }
    }

    // What a source failed to give that did not give it.
    fn place(self) -> ReadPlace
        ensures { result ≡ place_of self }
    {
        match self {
            List::Stop => ReadPlace::StopList,
            List::Alert => ReadPlace::AlertList,
        }
    }
}

/// Attaches and reads the lists that have a name, the stop list first, and gives their entries. A list that is too
/// long is not read.
pub fn read_lists<L: Source>(
    alloc: Global,
    names: &ListNames,
    source: &mut L,
) -> Result<Lists, Status>
    requires ready { AreReady (L.nature source.old) (L.slots source.old) names.now }
    ensures source { KeepsSource L.nature L.faults source.old source.new }
    ensures slots { OnlyLists names.now (L.slots source.new) }
    ensures listed { OnOk result (AreListed names.now (L.slots source.new)) }
    ensures fits { OnOk result ((list : ListName) → ListFits (list_told (L.nature source.old) names.now) (L.slots source.new) list) }
    ensures entries { IfOk result (AreEntries (list_told (L.nature source.old) names.now)) }
    ensures sure { OnOk result (L.faults source.new ≡ L.faults source.old) }
    ensures cause { IfErr result (IsListsEnd (list_told (L.nature source.old) names.now) (L.slots source.new) (Rose (L.faults source.old) (L.faults source.new))) }
{
    let stop = read_list(alloc, List::Stop, names.stop.as_ref(), source)?;
    let alert = read_list(alloc, List::Alert, names.alert.as_ref(), source)?;
    match Lists::read(alloc, stop.as_slice(), alert.as_slice()) {
        Ok(lists) => Ok(lists),
        Err(_) => Err(Status::NoMemory),
    }
}

// Attaches a list that has a name to its slot, and reads it. One without a name has no bytes.
fn read_list<L: Source>(
    alloc: Global,
    list: List,
    name: Option<&Name>,
    source: &mut L,
) -> Result<Vec<u8>, Status>
    requires free { L.slots source.old (slot_of list) ≡ None }
    requires asked { IfSome (option_copied name) (λ name. IsTrue ((L.nature source.old).may_attach name)) }
    ensures source { KeepsSource L.nature L.faults source.old source.new }
    ensures others { (slot : ℕ) → slot ≢ slot_of list → L.slots source.new slot ≡ L.slots source.old slot }
    ensures only { IfSome (L.slots source.new (slot_of list)) (λ s. option_copied name.entry ≡ Some s.name) }
    ensures attached { OnOk result (IfSome (option_copied name.entry) (λ name. IsSomeAnd (L.slots source.new (slot_of list)) (λ s. s.name ≡ name))) }
    ensures fits { OnOk result (Fits LIST_MOST (bytes_told (L.nature source.old) (option_copied name.entry)) (L.slots source.new (slot_of list))) }
    ensures bytes { IfOk result (λ read. IfSome (bytes_told (L.nature source.old) (option_copied name.entry)) (λ bytes. read.items ≡ bytes)) }
    ensures sure { OnOk result (L.faults source.new ≡ L.faults source.old) }
    ensures cause { IfErr result (IsListEnd list (bytes_told (L.nature source.old) (option_copied name.entry)) (L.slots source.new (slot_of list)) (Rose (L.faults source.old) (L.faults source.new))) }
{
    let Some(name) = name else {
        return Ok(Vec::new(alloc));
    };
    let slot = list.slot();
    let place = list.place();
    let Ok(size) = source.attach(slot, name.as_str()) else {
        return Err(Status::ReadFault { place });
    };
    if size > LIST_MOST {
        return Err(Status::ListTooLong { list, size });
    }
    match read_whole(alloc, source, slot, size) {
        Ok(bytes) => Ok(bytes),
        Err(ReadEnd::Fault) => Err(Status::ReadFault { place }),
        Err(ReadEnd::NoMemory) => Err(Status::NoMemory),
    }
}
