// The table of a list: its entries, and the slots by which they are found. There are two buckets an entry, and a bucket
// is a slot; an entry whose slot is taken stands in the next empty one, behind the last bucket if need be. So a search ends
// at the first empty slot, mostly in the cache line that it began in.
ghost use Rattle.std.specs.Prelude.{◌≡◌, ◌<◌, ◌==◌, Some, None, length, option_copied, IfOk};
ghost use Rattle.std.specs.List.{list_any};
ghost use Rattle.stop_lists.specs.Lists.{entries_of, meets};
ghost use Rattle.stop_lists.specs.Hash.{hash_of, key_of};
ghost use Rattle.stop_lists.specs.Places.{is_entry};
ghost use Rattle.stop_lists.specs.Buckets.{IsTable};

use crate::buckets::{EMPTY, Slot, first_empty, put};
use crate::entries::Entries;
use crate::hash::home_of;
use crate::line::{add_line, cut_at};
use byte_kit::NoMemory;
use std::alloc::Global;
use std::marker::Model;

#[derive(Drop)]
pub(crate) struct Table {
    entries: Entries,
    // How many buckets there are.
    count: usize,
    slots: Vec<Slot>,
}

impl Model for Table {
    ghost use Rattle.std.specs.Prelude.{List};
    ghost use Rattle.stop_lists.specs.Lists.{Entry};

    ghost Value = { List Entry };

    ghost use Rattle.stop_lists.specs.Buckets.{IsTable};

    ghost view = { λ t. t.entries };

    ghost invariant = { λ t. IsTable t.entries t.count t.slots.items };
}

impl Table {
    // The table of a list's bytes. Its one refusal is want of memory.
    pub(crate) fn read(alloc: Global, list: &[u8]) -> Result<Table, NoMemory>
        ensures { IfOk result (λ table. table ≡ entries_of list.now) }
    {
        let mut entries = Entries::make(alloc);
        let mut rest = list;
        while let Some((line, more)) = cut_at(rest, b'\n') {
            add_line(alloc, line, &mut entries)?;
            rest = more;
        }
        add_line(alloc, rest, &mut entries)?;
        Table::of(alloc, entries)
    }

    // The table of entries. Its one refusal is want of memory.
    fn of(alloc: Global, entries: Entries) -> Result<Table, NoMemory>
        ensures { IfOk result (λ table. table ≡ entries) }
    {
        let count = entries.len().saturating_mul(2);
        let slots = slots_of(alloc, &entries, count)?;
        Ok(Table {
            entries,
            count,
            slots,
        })
    }

    // Whether there is no entry.
    pub(crate) fn is_empty(&self) -> bool
        ensures { result ≡ (length self.now == 0) }
    {
        self.entries.len() == 0
    }

    // Whether an entry meets a feature in a context, whose hash without the context is the first, and with it
    // the second.
    #[tactic(auto, using(crate::proofs::Search::meets_by_either))]
    pub(crate) fn meets(&self, alone: u64, within: u64, feature: &[u8], context: &[u8]) -> bool
        requires alone { alone ≡ hash_of (key_of feature.now None) }
        requires within { within ≡ hash_of (key_of feature.now (Some context.now)) }
        ensures { result ≡ list_any (meets feature.now context.now) self.now }
    {
        self.has(alone, feature, None) || self.has(within, feature, Some(context))
    }

    // Whether there is the entry of a feature, with this context or with none, whose hash this is.
    fn has(&self, hash: u64, feature: &[u8], context: Option<&[u8]>) -> bool
        requires { hash ≡ hash_of (key_of feature.now (option_copied context)) }
        ensures { result ≡ list_any (is_entry feature.now (option_copied context.entry)) self.now }
    {
        if self.count == 0 {
            return false;
        }
        for at in home_of(hash, self.count)..self.slots.len() {
            let slot = self.slots[at];
            if slot.number == 0 {
                return false;
            }
            if slot.hash == hash && self.entries.is_at(slot.number - 1, feature, context) {
                return true;
            }
        }
        false
    }
}

// The slots of entries, with so many buckets. Its one refusal is want of memory.
fn slots_of(alloc: Global, entries: &Entries, count: usize) -> Result<Vec<Slot>, NoMemory>
    requires { 0 < length entries.now → 0 < count }
    ensures { IfOk result (λ slots. IsTable entries.now count slots.items) }
{
    let mut slots = Vec::new(alloc);
    slots.resize(count, EMPTY)?;
    for index in 0..entries.len() {
        let hash = entries.hash_at(index);
        let at = first_empty(slots.as_slice(), home_of(hash, count));
        let number = index + 1;
        put(&mut slots, at, Slot { hash, number })?;
    }
    Ok(slots)
}
