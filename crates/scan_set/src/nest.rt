// The scan of a buffer, and of the buffers within it.
//
// A buffer is scanned block by block. A block is a run of owned places, 16 KiB of them or what is left.
// All scanners search it, one after the other, and its features are made, before the next block is
// begun: the second search and the features then read bytes that are still in the first level of the
// processor's cache, which has 32 KiB or more. At the end of a search of a whole image its front has long
// left the cache.
//
// Where a text is encoded, it is decoded into the room of its level, and what it says is a buffer of the
// next level, which is scanned before the events behind the text are gone over. So the features come in
// their order, and nothing is sorted.
ghost use Rattle.std.specs.Prelude.{◌≡◌, ◌-◌, ◌<◌, ◌≤◌, ◌++◌, length, map, take, is_some, IfSome, OnOk};
ghost use Rattle.sbuf_nest.specs.Around.{look_at};
ghost use Rattle.sbuf_nest.specs.Turns.{turned};
ghost use Rattle.decode_views.specs.Xor.{xored_bytes};
ghost use Rattle.scan_set.specs.Decoders.{value_of};
ghost use Rattle.scan_set.specs.Events.{has_view, event_features, sign_features};
ghost use Rattle.scan_set.specs.Fits.{IsReady, IsTextAt, FitsSign, FitsEvent};
ghost use Rattle.scan_set.specs.Here.{at_places, here, owned};

use crate::ScanPlan;
use crate::event::{Event, Sign};
use crate::feature::add_marked;
use crate::level::{Level, LevelLists, Values, list_events, view_of};
use byte_kit::NoMemory;
use decode_base64::b64_value;
use decode_hex::hex_value;
use decode_views::utf16_value;
use forensic_path::{Decoder, Feature};
use sbuf_nest::{Extent, Mark, Sbuf, Trail};
use scan_find::Matcher;
use std::alloc::Global;

// How many places are searched before their features are made.
const BLOCK_BYTES: usize = 16384;

// What all levels of a scan share.
#[derive(Drop)]
pub(crate) struct Run<M: Matcher> {
    pub(crate) alloc: Global,
    // The matchers of the patterns, in their order.
    pub(crate) matchers: Vec<M>,
    // The way from the image into the buffer that is scanned.
    pub(crate) trail: Trail,
    // The features so far.
    pub(crate) out: Vec<Feature>,
}

// Appends the features of the places that the buffer owns, in which so many levels are left.
#[cycle(nest)]
pub(crate) fn scan_level<M: Matcher>(
    sb: &Sbuf,
    left: u8,
    plan: &ScanPlan,
    run: &mut Run<M>,
    levels: &mut [Level],
) -> Result<(), NoMemory>
    requires ready { IsReady plan.now left (length run.old.matchers.items) run.old.trail }
    requires room { left < length levels.old }
    ensures same { map M.reading run.new.matchers.items ≡ map M.reading run.old.matchers.items }
    ensures limit { run.new.trail.limit ≡ run.old.trail.limit }
    ensures trail { OnOk result (run.new.trail.turns ≡ run.old.trail.turns) }
    ensures out { OnOk result (run.new.out.items ≡ run.old.out.items ++ owned (map M.matches (map M.reading run.old.matchers.items)) plan.now left run.old.trail.turns sb.now.bytes.now sb.now.base sb.now.own_from (sb.now.own_to - sb.now.own_from)) }
{
    let Some((level, deeper)) = levels.split_first_mut() else {
        return Err(NoMemory);
    };
    let Level {
        lists,
        view,
        values,
    } = level;
    let view = view_of(
        sb.bytes,
        plan.mask,
        takes_view(left, plan, &run.trail),
        view,
    )?;
    let mut next = sb.own_from();
    while next < sb.own_to() {
        let to = (next + BLOCK_BYTES).min(sb.own_to());
        let block = Sbuf::of(sb.bytes, next, to, sb.base);
        scan_block(&block, view, left, plan, run, lists, values, deeper)?;
        next = to;
    }
    Ok(())
}

// A view is searched: a level is left for it, a mask is set, and no view was taken on the way.
fn takes_view(left: u8, plan: &ScanPlan, trail: &Trail) -> bool
    ensures { result ≡ has_view plan.now left trail.now.turns }
{
    if left == 0 || plan.mask == 0 {
        return false;
    }
    !trail.has_xor()
}

// Appends the features of a block, whose view is given where it is searched.
#[cycle(nest)]
fn scan_block<M: Matcher>(
    block: &Sbuf,
    view: Option<&[u8]>,
    left: u8,
    plan: &ScanPlan,
    run: &mut Run<M>,
    lists: &mut LevelLists,
    values: &mut Values,
    deeper: &mut [Level],
) -> Result<(), NoMemory>
    requires ready { IsReady plan.now left (length run.old.matchers.items) run.old.trail }
    requires room { left ≤ length deeper.old }
    requires on { is_some view ≡ has_view plan.now left run.old.trail.turns }
    requires view { IfSome view (λ seen. seen.now ≡ xored_bytes plan.now.mask block.now.bytes.now) }
    ensures same { map M.reading run.new.matchers.items ≡ map M.reading run.old.matchers.items }
    ensures limit { run.new.trail.limit ≡ run.old.trail.limit }
    ensures trail { OnOk result (run.new.trail.turns ≡ run.old.trail.turns) }
    ensures out { OnOk result (run.new.out.items ≡ run.old.out.items ++ owned (map M.matches (map M.reading run.old.matchers.items)) plan.now left run.old.trail.turns block.now.bytes.now block.now.base block.now.own_from (block.now.own_to - block.now.own_from)) }
{
    list_events(
        run.alloc,
        block,
        left,
        plan,
        view,
        run.matchers.as_mut_slice(),
        lists,
    )?;
    let events = lists.plain.events.items.as_slice();
    run.out.reserve(events.len())?;
    for event in events {
        add_event(block, view, event, left, plan, run, values, deeper)?;
    }
    Ok(())
}

// Appends the features of an event of the block, or of its view.
#[cycle(nest)]
fn add_event<M: Matcher>(
    block: &Sbuf,
    view: Option<&[u8]>,
    event: &Event,
    left: u8,
    plan: &ScanPlan,
    run: &mut Run<M>,
    values: &mut Values,
    deeper: &mut [Level],
) -> Result<(), NoMemory>
    requires ready { IsReady plan.now left (length run.old.matchers.items) run.old.trail }
    requires room { left ≤ length deeper.old }
    requires view { IfSome view (λ seen. seen.now ≡ xored_bytes plan.now.mask block.now.bytes.now) }
    requires fits { FitsEvent plan.now left block.now.bytes.now event.now }
    ensures same { map M.reading run.new.matchers.items ≡ map M.reading run.old.matchers.items }
    ensures limit { run.new.trail.limit ≡ run.old.trail.limit }
    ensures trail { OnOk result (run.new.trail.turns ≡ run.old.trail.turns) }
    ensures out { OnOk result (run.new.out.items ≡ run.old.out.items ++ event_features (map M.matches (map M.reading run.old.matchers.items)) plan.now left run.old.trail.turns block.now.bytes.now block.now.base event.now) }
{
    let place = block.place(event.at);
    if !event.in_view {
        return add_sign(
            block,
            event.at,
            place,
            &event.sign,
            left,
            plan,
            run,
            values,
            deeper,
        );
    }
    let Some(view) = view else {
        return Err(NoMemory);
    };
    run.trail.push(place, Decoder::Xor(plan.mask));
    let seen = Sbuf::child(view);
    add_sign(
        &seen,
        event.at,
        0,
        &event.sign,
        left - 1,
        plan,
        run,
        values,
        deeper,
    )?;
    run.trail.pop();
    Ok(())
}

// Appends the features of what stands at a place of a buffer. The place of the path may be another one:
// that of a view is 0.
#[cycle(nest)]
fn add_sign<M: Matcher>(
    sb: &Sbuf,
    at: usize,
    place: u64,
    sign: &Sign,
    left: u8,
    plan: &ScanPlan,
    run: &mut Run<M>,
    values: &mut Values,
    deeper: &mut [Level],
) -> Result<(), NoMemory>
    requires ready { IsReady plan.now left (length run.old.matchers.items) run.old.trail }
    requires room { left ≤ length deeper.old }
    requires inside { at < length sb.now.bytes.now }
    requires fits { FitsSign left (look_at sb.now.bytes.now at) sign.now }
    ensures same { map M.reading run.new.matchers.items ≡ map M.reading run.old.matchers.items }
    ensures limit { run.new.trail.limit ≡ run.old.trail.limit }
    ensures trail { OnOk result (run.new.trail.turns ≡ run.old.trail.turns) }
    ensures out { OnOk result (run.new.out.items ≡ run.old.out.items ++ sign_features (map M.matches (map M.reading run.old.matchers.items)) plan.now left run.old.trail.turns (look_at sb.now.bytes.now at) place sign.now) }
{
    match *sign {
        Sign::Own {
            kind,
            which,
            extent,
        } => {
            let mark = Mark {
                at,
                kind,
                which,
                extent,
            };
            let path = run.trail.path_at(run.alloc, place)?;
            add_marked(run.alloc, sb, plan, &mark, path, &mut run.out)
        }
        Sign::Encoded { by, extent } => add_text(
            sb.look(at).after,
            place,
            by,
            extent,
            left,
            plan,
            run,
            values,
            deeper,
        ),
    }
}

// Decodes the text at the front of the bytes, which stands at the place, and appends the features of what it
// says.
#[cycle(nest)]
fn add_text<M: Matcher>(
    after: &[u8],
    place: u64,
    by: Decoder,
    extent: Extent,
    left: u8,
    plan: &ScanPlan,
    run: &mut Run<M>,
    values: &mut Values,
    deeper: &mut [Level],
) -> Result<(), NoMemory>
    requires ready { IsReady plan.now left (length run.old.matchers.items) run.old.trail }
    requires room { left ≤ length deeper.old }
    requires some { 1 ≤ left }
    requires text { IsTextAt by after.now extent }
    ensures same { map M.reading run.new.matchers.items ≡ map M.reading run.old.matchers.items }
    ensures limit { run.new.trail.limit ≡ run.old.trail.limit }
    ensures trail { OnOk result (run.new.trail.turns ≡ run.old.trail.turns) }
    ensures out { OnOk result (run.new.out.items ≡ run.old.out.items ++ at_places (here (map M.matches (map M.reading run.old.matchers.items)) plan.now (left - 1) (turned run.old.trail.turns place by)) (value_of by (take extent.bytes after.now))) }
{
    match by {
        Decoder::Base64 => {
            b64_value(after, extent, &mut values.base64)?;
            scan_value(values.base64.as_slice(), place, by, left, plan, run, deeper)
        }
        Decoder::Hex => {
            hex_value(after, extent, &mut values.hex)?;
            scan_value(values.hex.as_slice(), place, by, left, plan, run, deeper)
        }
        Decoder::Utf16 => {
            utf16_value(after, extent, &mut values.utf16)?;
            scan_value(values.utf16.as_slice(), place, by, left, plan, run, deeper)
        }
        Decoder::Xor(_) => Err(NoMemory),
    }
}

// Appends the features of the value of a text that stands at the place.
#[cycle(nest)]
fn scan_value<M: Matcher>(
    value: &[u8],
    place: u64,
    by: Decoder,
    left: u8,
    plan: &ScanPlan,
    run: &mut Run<M>,
    deeper: &mut [Level],
) -> Result<(), NoMemory>
    requires ready { IsReady plan.now left (length run.old.matchers.items) run.old.trail }
    requires room { left ≤ length deeper.old }
    requires some { 1 ≤ left }
    ensures same { map M.reading run.new.matchers.items ≡ map M.reading run.old.matchers.items }
    ensures limit { run.new.trail.limit ≡ run.old.trail.limit }
    ensures trail { OnOk result (run.new.trail.turns ≡ run.old.trail.turns) }
    ensures out { OnOk result (run.new.out.items ≡ run.old.out.items ++ at_places (here (map M.matches (map M.reading run.old.matchers.items)) plan.now (left - 1) (turned run.old.trail.turns place by)) value.now) }
{
    run.trail.push(place, by);
    scan_level(&Sbuf::child(value), left - 1, plan, run, deeper)?;
    run.trail.pop();
    Ok(())
}
