// The text of a path, as `100-BASE64-0`.
ghost use Rattle.std.specs.Prelude.{◌≡◌, ◌++◌, take, codes, vec_len, IfOk, OnOk, OnErr};
ghost use Rattle.forensic_path.specs.PathText.{decoder_text, step_text, path_text_of};

use crate::{Decoder, Path, Step};
use byte_kit::{Bytes, NoMemory, dec_into};
use std::alloc::Global;

/// The text of a path: its offset in decimal, and for each step a dash, the decoder, a dash and the
/// place in decimal. Its one refusal is want of memory.
pub fn path_text(alloc: Global, path: &Path) -> Result<Bytes, NoMemory>
    ensures { IfOk result (λ text. text ≡ path_text_of path.now) }
{
    let mut text = Vec::new(alloc);
    path_into(path, &mut text)?;
    Ok(Bytes::from(text))
}

/// Appends the text of a path, as to a line that is made of several parts. Its one refusal is want of
/// memory, which leaves the items as they were.
pub fn path_into(path: &Path, into: &mut Vec<u8>) -> Result<(), NoMemory>
    ensures appended { OnOk result (into.new.items ≡ into.old.items ++ path_text_of path.now) }
    ensures same { OnErr result (into.new.items ≡ into.old.items) }
{
    let held = into.len();
    if let Err(refusal) = push_path(path, into) {
        into.truncate(held);
        return Err(refusal);
    }
    Ok(())
}

// Appends the text of a path, or for want of memory some front of it.
#[tactic(auto, unfolding(crate::specs::PathText::path_text_of))]
fn push_path(path: &Path, into: &mut Vec<u8>) -> Result<(), NoMemory>
    ensures appended { OnOk result (into.new.items ≡ into.old.items ++ path_text_of path.now) }
    ensures front { take (vec_len into.old) into.new.items ≡ into.old.items }
{
    dec_into(path.top, into)?;
    for step in path.steps.items() {
        push_step(step, into)?;
    }
    Ok(())
}

fn push_step(step: &Step, into: &mut Vec<u8>) -> Result<(), NoMemory>
    ensures appended { OnOk result (into.new.items ≡ into.old.items ++ step_text step.now) }
    ensures front { take (vec_len into.old) into.new.items ≡ into.old.items }
{
    push_decoder(step.by, into)?;
    into.extend_from_slice(b"-")?;
    dec_into(step.at, into)
}

fn push_decoder(decoder: Decoder, into: &mut Vec<u8>) -> Result<(), NoMemory>
    ensures appended { OnOk result (into.new.items ≡ into.old.items ++ codes "-" ++ decoder_text decoder) }
    ensures front { take (vec_len into.old) into.new.items ≡ into.old.items }
{
    match decoder {
        Decoder::Base64 => into.extend_from_slice(b"-BASE64")?,
        Decoder::Hex => into.extend_from_slice(b"-HEX")?,
        Decoder::Utf16 => into.extend_from_slice(b"-UTF16")?,
        Decoder::Xor(mask) => {
            into.extend_from_slice(b"-XOR")?;
            dec_into(u64::from(mask), into)?;
        }
    }
    Ok(())
}
