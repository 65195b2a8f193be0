// The path of a text. Dashes keep the parts apart: no decimal and no decoder has one.
ghost use Rattle.std.specs.Prelude.{ℕ, List, ◌≡◌, ◌≢◌, ◌<◌, ◌≤◌, ◌++◌, ◌∷◌, decimal, length, IfSome, IfNone, IfOk, IfErr};
ghost use Rattle.forensic_path.specs.PathText.{decoder_text, step_text};
ghost use Rattle.forensic_path.specs.Parts.{FollowsPart, IsCut};
ghost use Rattle.forensic_path.specs.Grammar.{IsLawfulDecoder, IsLawfulStep, HaveText, HasText, IsReadAs, TellsDeepSteps, TellsDeepPath};

use crate::{Decoder, Path, PathFault, STEPS_MOST, Step, Steps};
use byte_kit::dec_read;
use std::alloc::Global;

// What stands between the parts of a text.
const DASH: u8 = b'-';

/// Reads the text of a path of at most [`STEPS_MOST`] steps.
///
/// Refused with `Form` where no path has this text, and with `Deep` where one has, but with more steps;
/// the whole text is read to tell how many.
pub fn path_read(alloc: Global, text: &[u8]) -> Result<Path, PathFault>
    ensures ok { IfOk result (λ path. HasText path text.now) }
    ensures few { IfOk result (λ path. length path.steps ≤ STEPS_MOST) }
    ensures deep { IfErr result (TellsDeepPath text.now) }

    // The text of a path is answered by that path, or else by the number of its steps, and never by `Form`.
    ensures read { (path : Path) → HasText path text.now → IsReadAs path (length path.steps) result }
{
    let (front, rest) = cut_at_dash(text);
    let Some(top) = dec_read(front) else {
        return Err(PathFault::Form);
    };
    let steps = steps_read(alloc, rest)?;
    Ok(Path { top, steps })
}

// Reads steps up to the end of the text. Those past the limit are counted, and not kept.
fn steps_read(alloc: Global, text: &[u8]) -> Result<Steps, PathFault>
    requires { FollowsPart text.now }
    ensures ok { IfOk result (λ steps. HaveText steps text.now) }
    ensures few { IfOk result (λ steps. length steps ≤ STEPS_MOST) }
    ensures deep { IfErr result (TellsDeepSteps text.now) }
    ensures read { (steps : List Step) → HaveText steps text.now → IsReadAs steps (length steps) result }
{
    let mut steps = Steps::make(alloc);
    let mut count: u64 = 0;
    let mut rest = text;
    while !rest.is_empty() {
        let Some((step, behind)) = step_read(rest) else {
            return Err(PathFault::Form);
        };
        if count < STEPS_MOST {
            steps.add(step)?;
        }
        count += 1;
        rest = behind;
    }
    if STEPS_MOST < count {
        return Err(PathFault::Deep { steps: count });
    }
    Ok(steps)
}

// The step at the front of a text, and what follows it.
fn step_read(text: &[u8]) -> Option<(Step, &[u8])>
    ensures step { IfSome result (λ r. IsLawfulStep r.0) }
    ensures text { IfSome result (λ r. text.now ≡ step_text r.0 ++ r.1.now) }
    ensures rest { IfSome result (λ r. FollowsPart r.1.now) }
    ensures none { IfNone result ((step : Step) (rest : List ℕ) → IsLawfulStep step → FollowsPart rest
        → text.now ≢ step_text step ++ rest) }
{
    let (name, rest) = cut_at_dash(behind_dash(text)?);
    let by = decoder_read(name)?;
    let (place, rest) = cut_at_dash(behind_dash(rest)?);
    let at = dec_read(place)?;
    Some((Step { by, at }, rest))
}

// What stands behind a dash at the front.
fn behind_dash(text: &[u8]) -> Option<&[u8]>
    ensures some { IfSome result (λ rest. text.now ≡ DASH ∷ rest.now) }
    ensures none { IfNone result ((rest : List ℕ) → text.now ≢ DASH ∷ rest) }
{
    text.strip_prefix(&[DASH])
}

// The bytes ahead of the first dash, and the rest.
fn cut_at_dash(text: &[u8]) -> (&[u8], &[u8])
    ensures { IsCut text.now result.0.now result.1.now }
{
    let end = text.iter().position(|byte| *byte == DASH);
    text.split_at(end.unwrap_or(text.len()))
}

// The decoder of this name.
fn decoder_read(name: &[u8]) -> Option<Decoder>
    ensures lawful { IfSome result IsLawfulDecoder }
    ensures name { IfSome result (λ decoder. decoder_text decoder ≡ name.now) }
    ensures none { IfNone result ((decoder : Decoder) → IsLawfulDecoder decoder
        → decoder_text decoder ≢ name.now) }
{
    if name == b"BASE64".as_slice() {
        return Some(Decoder::Base64);
    }
    if name == b"HEX".as_slice() {
        return Some(Decoder::Hex);
    }
    if name == b"UTF16".as_slice() {
        return Some(Decoder::Utf16);
    }
    let mask = mask_read(name.strip_prefix(b"XOR")?)?;
    Some(Decoder::Xor(mask))
}

// The mask, 1 to 255, of these digits.
fn mask_read(digits: &[u8]) -> Option<u8>
    ensures some { IfSome result (λ mask. (0 < mask) × (decimal mask ≡ digits.now)) }
    ensures none { IfNone result ((mask : ℕ) → 0 < mask → mask < 256 → decimal mask ≢ digits.now) }
{
    match dec_read(digits)? {
        mask @ 1..=255 => Some(mask as u8),
        _ => None,
    }
}
