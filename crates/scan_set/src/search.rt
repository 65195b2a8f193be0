// The searches of a block.
ghost use Rattle.std.specs.Prelude.{◌≡◌, ◌≤◌, false, length, map, OnOk};
ghost use Rattle.decode_base64.specs.Starts.{base64_starts};
ghost use Rattle.decode_hex.specs.Starts.{hex_starts};
ghost use Rattle.sbuf_nest.specs.Marks.{owned_marks};
ghost use Rattle.scan_set.specs.Decoders.{base64_at, hex_at, utf16_at};
ghost use Rattle.scan_set.specs.Events.{plain_events, text_event, merged_events};
ghost use Rattle.scan_set.specs.Marks.{urls_at, packets_at, execs_at, given_at, words_at};
ghost use Rattle.scan_set.specs.Lawful.{IsLawful};
ghost use Rattle.scan_find.specs.declared.TheConstants.{PATTERNS_MOST};

use crate::ScanPlan;
use crate::merge::Events;
use byte_kit::NoMemory;
use forensic_path::Scanner;
use sbuf_nest::{Found, Sbuf, Starts};
use scan_exec::find_execs;
use scan_find::{Lengths, Matcher, PATTERNS_MOST, find_given_into};
use scan_net::find_packets;
use scan_url::find_urls;
use scan_wordlist::{find_words, next_word_row};
use std::alloc::Global;

// The lists that searches fill. None is made anew for a block.
#[derive(Drop)]
pub(crate) struct Lists {
    // What all searches have found.
    pub(crate) events: Events,
    // What the last search of a scanner has found.
    found: Found,
    // What the search for packets has found, which comes ahead of its turn.
    packets: Found,
    // What the last search of a decoder has found.
    starts: Starts,
    // What the patterns match, place by place.
    lengths: Lengths,
}

impl Lists {
    // Empty lists. They take no memory.
    pub(crate) fn make(alloc: Global) -> Lists {
        Lists {
            events: Events::make(alloc),
            found: Found::make(alloc),
            packets: Found::make(alloc),
            starts: Starts::make(alloc),
            lengths: Lengths::make(alloc),
        }
    }
}

// Lists the events of a block, those of each scanner that is on, and where `nests` says so those of each
// decoder that is on, in place of those that were listed. The matchers mean afterwards what they meant
// before.
pub(crate) fn search_block<M: Matcher>(
    alloc: Global,
    block: &Sbuf,
    plan: &ScanPlan,
    nests: bool,
    matchers: &mut [M],
    lists: &mut Lists,
) -> Result<(), NoMemory>
    requires lawful { IsLawful plan.now }
    requires patterns { length matchers.old ≤ PATTERNS_MOST }
    ensures same { map M.reading matchers.new ≡ map M.reading matchers.old }
    ensures ok { OnOk result
        (lists.new.events.items.items ≡ owned_marks (plain_events (map M.matches (map M.reading matchers.old)) plan.now nests) block.now) }
{
    search_scanners(alloc, block, plan, matchers, lists)?;
    if !nests {
        return Ok(());
    }
    search_decoders(block, plan, lists)?;
    Ok(())
}

// Lists the events of the scanners. Packets are searched first, since that computes most: the bytes of the block
// come from memory meanwhile, and the other searches find them in the cache.
fn search_scanners<M: Matcher>(
    alloc: Global,
    block: &Sbuf,
    plan: &ScanPlan,
    matchers: &mut [M],
    lists: &mut Lists,
) -> Result<(), NoMemory>
    requires lawful { IsLawful plan.now }
    requires patterns { length matchers.old ≤ PATTERNS_MOST }
    ensures same { map M.reading matchers.new ≡ map M.reading matchers.old }
    ensures ok { OnOk result
        (lists.new.events.items.items ≡ owned_marks (plain_events (map M.matches (map M.reading matchers.old)) plan.now false) block.now) }
{
    lists.events.items.clear();
    search_packets(block, plan, &mut lists.packets)?;
    search_urls(block, plan, &mut lists.found)?;
    lists.events.merge(lists.found.marks())?;
    lists.events.merge(lists.packets.marks())?;
    search_execs(block, plan, &mut lists.found)?;
    lists.events.merge(lists.found.marks())?;
    search_given(
        alloc,
        block,
        plan,
        matchers,
        &mut lists.lengths,
        &mut lists.found,
    )?;
    lists.events.merge(lists.found.marks())?;
    search_words(block, plan, &mut lists.found)?;
    lists.events.merge(lists.found.marks())?;
    Ok(())
}

// Adds the events of the decoders to those of the scanners. Base64 and hexadecimal digits are searched from the
// first row of word bytes on, since neither begins ahead of it.
fn search_decoders(block: &Sbuf, plan: &ScanPlan, lists: &mut Lists) -> Result<(), NoMemory>
    ensures { OnOk result
        (lists.new.events.items.items ≡ merged_events (merged_events (merged_events lists.old.events.items.items
        (map text_event (owned_marks (base64_at plan.now) block.now)))
        (map text_event (owned_marks (hex_at plan.now) block.now)))
        (map text_event (owned_marks (utf16_at plan.now) block.now))) }
{
    let rows = from_first_row(block);
    search_base64(&rows, plan, &mut lists.starts)?;
    lists.events.merge(lists.starts.items())?;
    search_hex(&rows, plan, &mut lists.starts)?;
    lists.events.merge(lists.starts.items())?;
    search_utf16(block, plan, &mut lists.starts)?;
    lists.events.merge(lists.starts.items())?;
    Ok(())
}

// The part of a block from the first row of word bytes on. Each Base64 text begins with such a row, and each run
// of hexadecimal digits does; random and compressed bytes have none.
fn from_first_row<'a>(block: &Sbuf<'a>) -> Sbuf<'a>
    ensures base64 { owned_marks base64_starts result ≡ owned_marks base64_starts block.now }
    ensures hex { owned_marks hex_starts result ≡ owned_marks hex_starts block.now }
{
    let from = next_word_row(block.bytes, block.own_from(), block.own_to());
    Sbuf::of(block.bytes, from, block.own_to(), block.base)
}

// Lists URLs and domains.
fn search_urls(block: &Sbuf, plan: &ScanPlan, found: &mut Found) -> Result<(), NoMemory>
    ensures { OnOk result (found.new ≡ owned_marks (urls_at plan.now) block.now) }
{
    found.clear();
    let want_url = Scanner::Url.is_on(plan.scanners);
    let want_domain = Scanner::Domain.is_on(plan.scanners);
    if !want_url && !want_domain {
        return Ok(());
    }
    find_urls(block, want_url, want_domain, found)
}

// Lists packets.
fn search_packets(block: &Sbuf, plan: &ScanPlan, found: &mut Found) -> Result<(), NoMemory>
    ensures { OnOk result (found.new ≡ owned_marks (packets_at plan.now) block.now) }
{
    found.clear();
    if !Scanner::Net.is_on(plan.scanners) {
        return Ok(());
    }
    find_packets(block, found)
}

// Lists the headers of executables, and the signatures of compressed files.
fn search_execs(block: &Sbuf, plan: &ScanPlan, found: &mut Found) -> Result<(), NoMemory>
    ensures { OnOk result (found.new ≡ owned_marks (execs_at plan.now) block.now) }
{
    found.clear();
    let want_exec = Scanner::Exec.is_on(plan.scanners);
    let want_unread = Scanner::Unread.is_on(plan.scanners);
    if !want_exec && !want_unread {
        return Ok(());
    }
    find_execs(block, want_exec, want_unread, found)
}

// Lists keywords and the matches of patterns.
fn search_given<M: Matcher>(
    alloc: Global,
    block: &Sbuf,
    plan: &ScanPlan,
    matchers: &mut [M],
    lengths: &mut Lengths,
    found: &mut Found,
) -> Result<(), NoMemory>
    requires lawful { IsLawful plan.now }
    requires patterns { length matchers.old ≤ PATTERNS_MOST }
    ensures same { map M.reading matchers.new ≡ map M.reading matchers.old }
    ensures ok { OnOk result
        (found.new ≡ owned_marks (given_at (map M.matches (map M.reading matchers.old)) plan.now) block.now) }
{
    found.clear();
    if !Scanner::Find.is_on(plan.scanners) {
        return Ok(());
    }
    find_given_into(
        alloc,
        block,
        plan.keywords.items(),
        matchers,
        lengths,
        found,
    )
}

// Lists words.
fn search_words(block: &Sbuf, plan: &ScanPlan, found: &mut Found) -> Result<(), NoMemory>
    requires lawful { IsLawful plan.now }
    ensures { OnOk result (found.new ≡ owned_marks (words_at plan.now) block.now) }
{
    found.clear();
    if !Scanner::Word.is_on(plan.scanners) {
        return Ok(());
    }
    find_words(block, plan.word_min, plan.word_max, found)
}

// Lists the starts of Base64 texts.
fn search_base64(block: &Sbuf, plan: &ScanPlan, starts: &mut Starts) -> Result<(), NoMemory>
    ensures { OnOk result (starts.new ≡ owned_marks (base64_at plan.now) block.now) }
{
    starts.clear();
    if !Scanner::Base64.is_on(plan.scanners) {
        return Ok(());
    }
    decode_base64::find_texts(block, starts)
}

// Lists the starts of runs of hexadecimal digits.
fn search_hex(block: &Sbuf, plan: &ScanPlan, starts: &mut Starts) -> Result<(), NoMemory>
    ensures { OnOk result (starts.new ≡ owned_marks (hex_at plan.now) block.now) }
{
    starts.clear();
    if !Scanner::Hex.is_on(plan.scanners) {
        return Ok(());
    }
    decode_hex::find_runs(block, starts)
}

// Lists the starts of runs of UTF-16 pairs.
fn search_utf16(block: &Sbuf, plan: &ScanPlan, starts: &mut Starts) -> Result<(), NoMemory>
    ensures { OnOk result (starts.new ≡ owned_marks (utf16_at plan.now) block.now) }
{
    starts.clear();
    if !Scanner::Utf16.is_on(plan.scanners) {
        return Ok(());
    }
    decode_views::find_runs(block, starts)
}
