// The slots of a table. A slot holds an entry's whole hash beside its number, so that a search passes
// other entries without reading them.
ghost use Rattle.std.specs.Prelude.{◌≡◌, ◌≤◌, length, OnOk};
ghost use Rattle.stop_lists.specs.Buckets.{slot_at, IsFirstEmpty, IsPut};

use byte_kit::NoMemory;

// An entry's hash, and its number, counted from 1 on; 0 where the slot is empty.
#[derive(Clone, Copy, Debug)]
pub(crate) struct Slot {
    pub(crate) hash: u64,
    pub(crate) number: usize,
}

pub(crate) const EMPTY: Slot = Slot { hash: 0, number: 0 };

// The first empty slot from a bucket on, or the end where there is none.
pub(crate) fn first_empty(slots: &[Slot], home: usize) -> usize
    requires { home ≤ length slots.now }
    ensures { IsFirstEmpty slots.now home result }
{
    for at in home..slots.len() {
        if slots[at].number == 0 {
            return at;
        }
    }
    slots.len()
}

// Puts a slot in place of another, or at the end.
pub(crate) fn put(slots: &mut Vec<Slot>, at: usize, slot: Slot) -> Result<(), NoMemory>
    requires { at ≤ length slots.old.items }
    ensures { OnOk result (IsPut slots.old.items slots.new.items at slot) }
{
    if at < slots.len() {
        slots[at] = slot;
        return Ok(());
    }
    slots.push(slot)?;
    Ok(())
}
