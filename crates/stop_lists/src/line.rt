// A line of a list: which entry it names, if any.
ghost use Rattle.std.specs.Prelude.{◌≡◌, ◌<◌, ◌==◌, [], ◌∷◌, ◌++◌, length, option_to_list, position, IfSome, IfNone, OnOk};
ghost use Rattle.std.specs.List.{slice_split};
ghost use Rattle.std.specs.Str.Lines.{strip_carriage_return};
ghost use Rattle.stop_lists.specs.Lists.{entry_in};

use crate::entries::Entries;
use byte_kit::NoMemory;
use std::alloc::Global;

// Appends the entry of a line, if it has one, given without the LF at its end.
pub(crate) fn add_line(alloc: Global, line: &[u8], entries: &mut Entries) -> Result<(), NoMemory>
    ensures { OnOk result
        (entries.new ≡ entries.old ++ option_to_list (entry_in (strip_carriage_return line.now))) }
{
    add_fields(alloc, without_carriage_return(line), entries)
}

// The line without the CR at its end.
fn without_carriage_return(line: &[u8]) -> &[u8]
    ensures { result.now ≡ strip_carriage_return line.now }
{
    match line.split_last() {
        Some((b'\r', front)) => front,
        _ => line,
    }
}

// Appends the entry of a line's fields, if it has one.
fn add_fields(alloc: Global, line: &[u8], entries: &mut Entries) -> Result<(), NoMemory>
    ensures { OnOk result (entries.new ≡ entries.old ++ option_to_list (entry_in line.now)) }
{
    if line.is_empty() || line[0] == b'#' {
        return Ok(());
    }
    let Some((first, rest)) = cut_at(line, b'\t') else {
        return entries.add_alone(alloc, line);
    };
    let Some((second, rest)) = cut_at(rest, b'\t') else {
        return entries.add_within(alloc, first, rest);
    };
    let third = match cut_at(rest, b'\t') {
        Some((third, _)) => third,
        None => rest,
    };
    entries.add_within(alloc, second, third)
}

// The bytes ahead of the first mark, and those behind it.
pub(crate) fn cut_at(text: &[u8], mark: u8) -> Option<(&[u8], &[u8])>
    ensures some { IfSome result
        (λ cut. slice_split (λ byte. byte == mark) text.now ≡ cut.0.now ∷ slice_split (λ byte. byte == mark) cut.1.now) }
    ensures shorter { IfSome result (λ cut. length cut.1.now < length text.now) }
    ensures none { IfNone result (slice_split (λ byte. byte == mark) text.now ≡ text.now ∷ []) }
{
    let at = first_at(text, mark)?;
    let (front, rest) = text.split_at(at);
    Some((front, rest.split_at(1).1))
}

// The index of the first mark.
fn first_at(text: &[u8], mark: u8) -> Option<usize>
    ensures { result ≡ position (λ byte. byte == mark) text.now }
{
    text.iter().position(|byte| *byte == mark)
}
