// The lists of what the searches of a block find, merged by place.
//
// Each search lists what it found in order of place. Lists of two searches are merged in one pass, and
// where one of them is empty nothing is copied twice.
ghost use Rattle.std.specs.Prelude.{◌≡◌, [], ◌++◌, map, IfOk, OnOk};
ghost use Rattle.scan_set.specs.Events.{event_place, merged_events};
ghost use Rattle.scan_set.specs.Merged.{ahead, behind};

use crate::event::{Event, Listed};
use byte_kit::NoMemory;
use std::alloc::Global;
use std::mem;

// The events that the searches of a block have found, in order of place.
#[derive(Drop)]
pub(crate) struct Events {
    // What the searches so far have found.
    pub(crate) items: Vec<Event>,
    // Room to merge.
    spare: Vec<Event>,
}

impl Events {
    // No events. They take no memory.
    pub(crate) fn make(alloc: Global) -> Events {
        Events {
            items: Vec::new(alloc),
            spare: Vec::new(alloc),
        }
    }

    // Merges what a search has found. At one place it comes behind what was found before.
    pub(crate) fn merge<L: Listed>(&mut self, found: &[L]) -> Result<(), NoMemory>
        ensures { OnOk result (self.new.items.items ≡ merged_events self.old.items.items (map L.event found.now)) }
    {
        if found.is_empty() {
            return Ok(());
        }
        if self.items.is_empty() {
            return append_all(found, &mut self.items);
        }
        self.spare.clear();
        merge_into(self.items.as_slice(), found, &mut self.spare)?;
        mem::swap(&mut self.items, &mut self.spare);
        Ok(())
    }
}

// Appends both by place, at one place the events first.
fn merge_into<L: Listed>(
    events: &[Event],
    found: &[L],
    into: &mut Vec<Event>,
) -> Result<(), NoMemory>
    ensures { OnOk result (into.new.items ≡ into.old.items ++ merged_events events.now (map L.event found.now)) }
{
    into.reserve(events.len())?;
    let mut left = found;
    for event in events {
        left = pass_ahead(event.at, left, into)?;
        into.push(*event)?;
    }
    append_all(left, into)
}

// Appends those in front that stand ahead of the place, and lends the ones behind them.
fn pass_ahead<'a, L: Listed>(
    place: usize,
    found: &'a [L],
    into: &mut Vec<Event>,
) -> Result<&'a [L], NoMemory>
    ensures ahead { OnOk result (into.new.items ≡ into.old.items ++ ahead event_place place (map L.event found.now)) }
    ensures behind { IfOk result (λ left. map L.event left.now ≡ behind event_place place (map L.event found.now)) }
{
    let mut left = found;
    while let Some((first, rest)) = left.split_first() {
        let event = first.event();
        if event.at >= place {
            return Ok(left);
        }
        into.push(event)?;
        left = rest;
    }
    Ok(left)
}

// Appends the events of what was found.
fn append_all<L: Listed>(found: &[L], into: &mut Vec<Event>) -> Result<(), NoMemory>
    ensures { OnOk result (into.new.items ≡ into.old.items ++ map L.event found.now) }
{
    into.reserve(found.len())?;
    for item in found {
        into.push(item.event())?;
    }
    Ok(())
}
