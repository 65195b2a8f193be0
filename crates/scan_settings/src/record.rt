// The settings record, written.
ghost use Rattle.std.specs.Prelude.{◌≡◌, ◌<◌, ◌^◌, ◌++◌, IfOk, OnOk, length};
ghost use Rattle.std.specs.List.{All};
ghost use Rattle.scan_settings.specs.Lawful.{AreSettings, IsText, IsPlan};
ghost use Rattle.scan_settings.specs.Record.{text_bytes, texts_bytes, numbers_of, record_of, kept_by, kept_of};

use crate::settings::{Plan, Settings};
use byte_kit::{Bytes, Name, NoMemory, put_le16, put_le32, put_le64};
use std::alloc::Global;

/// What a settings record keeps.
#[derive(Drop)]
pub struct Kept {
    /// How many bytes the image has.
    pub image: u64,
    /// How many bytes a page has.
    pub page: u64,
    /// How many bytes the stop list has, or 0 where there is none.
    pub stop: u64,
    /// How many bytes the alert list has, or 0 where there is none.
    pub alert: u64,
    /// What the scan looks for.
    pub plan: Plan,
}

/// The record of these settings and of the sizes of an image, a stop list and an alert list. Its one refusal is
/// want of memory.
pub fn settings_bytes(
    alloc: Global,
    settings: &Settings,
    image: u64,
    stop: u64,
    alert: u64,
) -> Result<Bytes, NoMemory>
    requires { AreSettings settings.now }
    ensures { IfOk result (λ bytes. bytes ≡ record_of (kept_of settings.now image stop alert)) }
{
    let record = record_bytes(alloc, image, settings.page, stop, alert, &settings.plan)?;
    Ok(Bytes::from(record))
}

/// The record of these sizes, of an image, a page and both lists, and of what a scan looks for. Its one refusal is
/// want of memory.
#[tactic(auto, unfolding(crate::specs::Record::record_of))]
pub fn record_bytes(
    alloc: Global,
    image: u64,
    page: u64,
    stop: u64,
    alert: u64,
    plan: &Plan,
) -> Result<Vec<u8>, NoMemory>
    requires { IsPlan plan.now }
    ensures { IfOk result (λ bytes. bytes.items ≡ record_of (kept_by image page stop alert plan.now)) }
{
    let mut body = numbers_bytes(alloc, image, page, stop, alert, plan)?;
    push_texts(plan.keywords.items(), &mut body)?;
    push_names(plan.patterns.items(), &mut body)?;
    let mut record = Vec::new(alloc);
    push(put_le32(body.len() as u32).as_slice(), &mut record)?;
    push(body.as_slice(), &mut record)?;
    Ok(record)
}

// Appends bytes. Its one refusal is want of memory.
fn push(bytes: &[u8], into: &mut Vec<u8>) -> Result<(), NoMemory>
    ensures { OnOk result (into.new.items ≡ into.old.items ++ bytes.now) }
{
    into.extend_from_slice(bytes)?;
    Ok(())
}

// The version and the numbers of a record. Its one refusal is want of memory.
#[tactic(auto, unfolding(crate::specs::Record::numbers_of))]
fn numbers_bytes(
    alloc: Global,
    image: u64,
    page: u64,
    stop: u64,
    alert: u64,
    plan: &Plan,
) -> Result<Vec<u8>, NoMemory>
    ensures { IfOk result (λ bytes. bytes.items ≡ numbers_of (kept_by image page stop alert plan.now)) }
{
    let mut bytes = Vec::new(alloc);
    push([1].as_slice(), &mut bytes)?;
    push(put_le64(image).as_slice(), &mut bytes)?;
    push(put_le64(page).as_slice(), &mut bytes)?;
    push(put_le16(plan.scanners).as_slice(), &mut bytes)?;
    push([plan.depth, plan.mask].as_slice(), &mut bytes)?;
    push(put_le16(plan.word_min).as_slice(), &mut bytes)?;
    push(put_le16(plan.word_max).as_slice(), &mut bytes)?;
    push(put_le16(plan.context).as_slice(), &mut bytes)?;
    push(put_le64(stop).as_slice(), &mut bytes)?;
    push(put_le64(alert).as_slice(), &mut bytes)?;
    Ok(bytes)
}

// Appends a text, behind its length. Its one refusal is want of memory.
fn push_text(text: &[u8], into: &mut Vec<u8>) -> Result<(), NoMemory>
    requires { length text.now < 2 ^ 16 }
    ensures { OnOk result (into.new.items ≡ into.old.items ++ text_bytes text.now) }
{
    push(put_le16(text.len() as u16).as_slice(), into)?;
    push(text, into)
}

// Appends texts, behind their number. Its one refusal is want of memory.
fn push_texts(texts: &[Bytes], into: &mut Vec<u8>) -> Result<(), NoMemory>
    requires few { length texts.now < 2 ^ 16 }
    requires texts { All IsText texts.now }
    ensures { OnOk result (into.new.items ≡ into.old.items ++ texts_bytes texts.now) }
{
    push(put_le16(texts.len() as u16).as_slice(), into)?;
    for text in texts {
        push_text(text.as_slice(), into)?;
    }
    Ok(())
}

// Appends names, behind their number. Its one refusal is want of memory.
fn push_names(names: &[Name], into: &mut Vec<u8>) -> Result<(), NoMemory>
    requires few { length names.now < 2 ^ 16 }
    requires texts { All IsText names.now }
    ensures { OnOk result (into.new.items ≡ into.old.items ++ texts_bytes names.now) }
{
    push(put_le16(names.len() as u16).as_slice(), into)?;
    for name in names {
        push_text(name.as_str().as_bytes(), into)?;
    }
    Ok(())
}
