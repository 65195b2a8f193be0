// What a level of nested buffers works with, and the events of a block of it.
ghost use Rattle.std.specs.Prelude.{◌≡◌, ◌≤◌, length, map, is_some, IfOk, IfSome, OnOk};
ghost use Rattle.sbuf_nest.specs.Marks.{owned_marks};
ghost use Rattle.decode_views.specs.Xor.{xored_bytes};
ghost use Rattle.scan_find.specs.declared.TheConstants.{PATTERNS_MOST};
ghost use Rattle.scan_set.specs.Events.{level_events};
ghost use Rattle.scan_set.specs.Lawful.{IsLawful};

use crate::ScanPlan;
use crate::search::{Lists, search_block};
use byte_kit::NoMemory;
use decode_views::xor_view;
use sbuf_nest::Sbuf;
use scan_find::{Matcher, PATTERNS_MOST};
use std::alloc::Global;

// What a level works with. Nothing of it is of use to anyone after its buffer was searched.
#[derive(Drop)]
pub(crate) struct Level {
    // The events of a block, and of its view.
    pub(crate) lists: LevelLists,
    // The buffer with each byte XORed with the mask.
    pub(crate) view: Vec<u8>,
    // What the texts of the buffer say.
    pub(crate) values: Values,
}

#[derive(Drop)]
pub(crate) struct LevelLists {
    pub(crate) plain: Lists,
    viewed: Lists,
}

// The value of a text, for each decoder.
#[derive(Drop)]
pub(crate) struct Values {
    pub(crate) base64: Vec<u8>,
    pub(crate) hex: Vec<u8>,
    pub(crate) utf16: Vec<u8>,
}

impl Level {
    // A level that has searched nothing. It takes no memory.
    pub(crate) fn make(alloc: Global) -> Level {
        Level {
            lists: LevelLists {
                plain: Lists::make(alloc),
                viewed: Lists::make(alloc),
            },
            view: Vec::new(alloc),
            values: Values {
                base64: Vec::new(alloc),
                hex: Vec::new(alloc),
                utf16: Vec::new(alloc),
            },
        }
    }
}

// The bytes of a buffer, each XORed with the mask, where they are asked for.
pub(crate) fn view_of<'v>(
    bytes: &[u8],
    mask: u8,
    on: bool,
    view: &'v mut Vec<u8>,
) -> Result<Option<&'v [u8]>, NoMemory>
    ensures on { IfOk result (λ seen. is_some seen ≡ on) }
    ensures view { IfOk result (λ seen. IfSome seen (λ bytes_seen. bytes_seen.now ≡ xored_bytes mask bytes.now)) }
{
    if !on {
        return Ok(None);
    }
    xor_view(bytes, mask, view)?;
    Ok(Some(view.as_slice()))
}

// Lists the events of a block in which so many levels are left, those of its view included, in place of
// those that were listed. The matchers mean afterwards what they meant before.
pub(crate) fn list_events<M: Matcher>(
    alloc: Global,
    block: &Sbuf,
    left: u8,
    plan: &ScanPlan,
    view: Option<&[u8]>,
    matchers: &mut [M],
    lists: &mut LevelLists,
) -> Result<(), NoMemory>
    requires lawful { IsLawful plan.now }
    requires patterns { length matchers.old ≤ PATTERNS_MOST }
    requires view { IfSome view (λ seen. seen.now ≡ xored_bytes plan.now.mask block.now.bytes.now) }
    ensures same { map M.reading matchers.new ≡ map M.reading matchers.old }
    ensures ok { OnOk result
        (lists.new.plain.events.items.items ≡ owned_marks (level_events (map M.matches (map M.reading matchers.old)) plan.now left (is_some view.entry)) block.now) }
{
    search_block(alloc, block, plan, left > 0, matchers, &mut lists.plain)?;
    let Some(view) = view else {
        return Ok(());
    };
    let seen = Sbuf::of(view, block.own_from, block.own_to, block.base);
    search_block(alloc, &seen, plan, left > 1, matchers, &mut lists.viewed)?;
    lists
        .plain
        .events
        .merge(lists.viewed.events.items.as_slice())?;
    Ok(())
}
