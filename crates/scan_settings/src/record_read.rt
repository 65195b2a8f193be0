// The settings record, read.
ghost use Rattle.std.specs.Prelude.{◌≡◌, ◌≢◌, ◌+◌, ◌<◌, ◌≤◌, ◌^◌, ◌↔◌, take, drop, slice_index, IfOk, IfSome, IfNone, IsTrue, length};
ghost use Rattle.std.specs.List.{All, list_all};
ghost use Rattle.std.specs.Str.{IsUtf8};
ghost use Rattle.byte_kit.specs.Numbers.{le16, le64};
ghost use Rattle.scan_settings.specs.declared.record.Kept.{Kept};
ghost use Rattle.scan_settings.specs.Lawful.{IsPlan};
ghost use Rattle.scan_settings.specs.Values.{is_text};
ghost use Rattle.scan_settings.specs.Record.{record_of, IsKept};
ghost use Rattle.scan_settings.specs.Fields.{AreFields, is_in, has_numbers, is_ranged, texts_at, behind_texts, patterns_at, fields_of};

use crate::options::{CONTEXT, DEPTH, KEYWORDS_MOST, PAGE, PATTERNS_MOST, WORD_MAX, WORD_MIN};
use crate::record::{Kept, record_bytes};
use crate::settings::{Plan, SCANNERS_END};
use crate::values::{NumberRange, TEXT_MOST, is_text};
use byte_kit::{Bytes, Name, Names, NoMemory, Texts, le64_at};
use std::alloc::Global;
use std::str::from_utf8;

/// The fewest bytes of a record: one without texts.
pub const RECORD_LEAST: usize = 51;

/// What a record keeps. None where the bytes are no record: one whose length does not fit, that is of another
/// version, or that keeps a value out of its range, crossed bounds of words, a bit that stands for no scanner, or
/// a pattern that is not UTF-8. Its one refusal is want of memory.
pub fn settings_read(alloc: Global, bytes: &[u8]) -> Result<Option<Kept>, NoMemory>
    ensures kept { IfOk result (λ read. IfSome read IsKept) }
    ensures some { IfOk result (λ read. IfSome read (λ kept. record_of kept ≡ bytes.now)) }
    ensures none { IfOk result (λ read. IfNone read ((kept : Kept) → IsKept kept → record_of kept ≢ bytes.now)) }
{
    if bytes.len() < RECORD_LEAST {
        return Ok(None);
    }
    let Some(kept) = fields_of(alloc, bytes)? else {
        return Ok(None);
    };
    if is_ranged(&kept) && is_record(alloc, &kept, bytes)? {
        Ok(Some(kept))
    } else {
        Ok(None)
    }
}

// The bytes are the record of what is kept. Its one refusal is want of memory.
fn is_record(alloc: Global, kept: &Kept, bytes: &[u8]) -> Result<bool, NoMemory>
    requires { IsPlan kept.now.plan }
    ensures { IfOk result (λ is. IsTrue is ↔ record_of kept.now ≡ bytes.now) }
{
    let record = record_bytes(
        alloc, kept.image, kept.page, kept.stop, kept.alert, &kept.plan,
    )?;
    Ok(record.as_slice() == bytes)
}

// What is kept lies in its ranges.
#[tactic(auto, unfolding(crate::specs::Fields::is_ranged))]
fn is_ranged(kept: &Kept) -> bool
    ensures { result ≡ is_ranged kept.now }
{
    let plan = &kept.plan;
    is_in(kept.page, PAGE)
        && has_numbers(plan)
        && plan.keywords.items().len() <= KEYWORDS_MOST
        && plan.patterns.items().len() <= PATTERNS_MOST
        && are_texts(plan.keywords.items())
        && are_names(plan.patterns.items())
}

// The numbers of a plan lie in their ranges.
#[tactic(auto, unfolding(crate::specs::Fields::has_numbers))]
fn has_numbers(plan: &Plan) -> bool
    ensures { result ≡ has_numbers plan.now }
{
    plan.scanners < SCANNERS_END
        && is_in(u64::from(plan.depth), DEPTH)
        && is_in(u64::from(plan.word_min), WORD_MIN)
        && is_in(u64::from(plan.word_max), WORD_MAX)
        && plan.word_min <= plan.word_max
        && is_in(u64::from(plan.context), CONTEXT)
}

// The number lies in the range.
fn is_in(number: u64, range: NumberRange) -> bool
    ensures { result ≡ is_in range number }
{
    range.least <= number && number <= range.greatest
}

fn are_texts(texts: &[Bytes]) -> bool
    ensures { result ≡ list_all is_text texts.now }
{
    for text in texts {
        if !is_text_of(text.as_slice()) {
            return false;
        }
    }
    true
}

fn are_names(names: &[Name]) -> bool
    ensures { result ≡ list_all is_text names.now }
{
    for name in names {
        if !is_text(name.as_str()) {
            return false;
        }
    }
    true
}

// The same of bytes that need not be UTF-8.
fn is_text_of(text: &[u8]) -> bool
    ensures { result ≡ is_text text.now }
{
    !text.is_empty() && text.len() <= TEXT_MOST
}

// The fields of bytes as far as they are a record. None where a pattern is not UTF-8. Its one refusal is want of
// memory.
#[tactic(auto, unfolding(crate::specs::Fields::fields_of))]
fn fields_of(alloc: Global, bytes: &[u8]) -> Result<Option<Kept>, NoMemory>
    requires { 51 ≤ length bytes.now }
    ensures some { IfOk result (λ read. IfSome read (λ kept. kept ≡ fields_of bytes.now)) }
    ensures sizes { IfOk result (λ read. IfSome read AreFields) }
    ensures utf8 { IfOk result (λ read. IfSome read (λ kept. All IsUtf8 kept.plan.patterns)) }
    ensures none { IfOk result (λ read. IfNone read (¬ (All IsUtf8 (patterns_at bytes.now)))) }
{
    let (_, rest) = bytes.split_at(49);
    let count = two_at(bytes, 47);
    let keywords = texts_at(alloc, count, rest)?;
    let rest = behind_texts(count, rest);
    let texts = texts_at(alloc, two_at(rest, 0), behind_two(rest))?;
    let Some(patterns) = names_of(alloc, texts.items())? else {
        return Ok(None);
    };
    Ok(Some(Kept {
        image: eight_at(bytes, 5),
        page: eight_at(bytes, 13),
        stop: eight_at(bytes, 31),
        alert: eight_at(bytes, 39),
        plan: Plan {
            scanners: two_at(bytes, 21),
            depth: byte_at(bytes, 23),
            mask: byte_at(bytes, 24),
            word_min: two_at(bytes, 25),
            word_max: two_at(bytes, 27),
            context: two_at(bytes, 29),
            keywords,
            patterns,
        },
    }))
}

// The byte of this number; past the end it is 0.
fn byte_at(bytes: &[u8], at: usize) -> u8
    ensures { result ≡ slice_index bytes.now at }
{
    match bytes.get(at) {
        Some(byte) => *byte,
        None => 0,
    }
}

// The two bytes from a place on as a number, as far as they are there.
fn two_at(bytes: &[u8], at: usize) -> u16
    requires { at < 2 ^ 32 }
    ensures { result ≡ le16 bytes.now at }
{
    u16::from(byte_at(bytes, at)) + 256 * u16::from(byte_at(bytes, at + 1))
}

// The eight bytes from a place on as a number.
fn eight_at(bytes: &[u8], at: usize) -> u64
    requires { at + 8 ≤ length bytes.now }
    ensures { result ≡ le64 bytes.now at }
{
    le64_at(bytes, at).unwrap_or(0)
}

// What stands behind the first two bytes.
fn behind_two(bytes: &[u8]) -> &[u8]
    ensures { result.now ≡ drop 2 bytes.now }
{
    match bytes {
        [_, _, rest @ ..] => rest,
        _ => &[],
    }
}

// The text that stands in front, behind its length.
fn text_at(bytes: &[u8]) -> &[u8]
    ensures { result.now ≡ take (le16 bytes.now 0) (drop 2 bytes.now) }
{
    let length = two_at(bytes, 0) as usize;
    let rest = behind_two(bytes);
    if length < rest.len() {
        rest.split_at(length).0
    } else {
        rest
    }
}

// What stands behind it.
fn behind_text(bytes: &[u8]) -> &[u8]
    ensures { result.now ≡ drop (le16 bytes.now 0) (drop 2 bytes.now) }
{
    let length = two_at(bytes, 0) as usize;
    let rest = behind_two(bytes);
    if length < rest.len() {
        rest.split_at(length).1
    } else {
        &[]
    }
}

// So many texts from the front on. Its one refusal is want of memory.
fn texts_at(alloc: Global, count: u16, bytes: &[u8]) -> Result<Texts, NoMemory>
    ensures { IfOk result (λ texts. texts ≡ texts_at count bytes.now) }
{
    let mut texts = Texts::make(alloc);
    let mut rest = bytes;
    for turn in 0..count {
        texts.add(Bytes::copy(alloc, text_at(rest))?)?;
        rest = behind_text(rest);
    }
    Ok(texts)
}

// What stands behind so many texts.
fn behind_texts(count: u16, bytes: &[u8]) -> &[u8]
    ensures { result.now ≡ behind_texts count bytes.now }
{
    let mut rest = bytes;
    for turn in 0..count {
        rest = behind_text(rest);
    }
    rest
}

// These texts as names. None where one is not UTF-8. Its one refusal is want of memory.
fn names_of(alloc: Global, texts: &[Bytes]) -> Result<Option<Names>, NoMemory>
    ensures some { IfOk result (λ read. IfSome read (λ names. names ≡ texts.now)) }
    ensures utf8 { IfOk result (λ read. IfSome read (λ names. All IsUtf8 names)) }
    ensures none { IfOk result (λ read. IfNone read (¬ (All IsUtf8 texts.now))) }
{
    let mut names = Names::make(alloc);
    for text in texts {
        let Ok(name) = from_utf8(text.as_slice()) else {
            return Ok(None);
        };
        names.add(Name::copy(alloc, name)?)?;
    }
    Ok(Some(names))
}
