// Judges the options of a command, from left to right.
ghost use Rattle.std.specs.Prelude.{◌≡◌, ◌+◌, ◌<◌, ◌≤◌, ◌^◌, ◌++◌, ◌∷◌, [], Some, None, IfOk, IfErr, OnOk, length};
ghost use Rattle.scan_settings.specs.Faults.{IsFault};
ghost use Rattle.scan_settings.specs.Settings.{texts};
ghost use Rattle.scan_settings.specs.Words.{begins_with_dash, is_followed, is_for, takes_value, often_why, option_why, value_why, value_fault, count_named, option_fault, options_fault, options_in, place_in, behind};

use crate::action::Action;
use crate::fault::{BadWord, Why, WordsFault};
use crate::options::{Often, OptionForm, ValueKind, form_of};
use crate::settings::word_at;
use crate::values::{is_text, number_in, scanner_of};
use byte_kit::NoMemory;
use std::alloc::Global;

/// The options of a command.
#[derive(Drop)]
pub struct Options {
    /// The numbers of the words that are options, in order.
    pub numbers: Vec<u32>,
    /// The number of the first place word, or of words where there is none.
    pub place: u32,
}

/// The options ahead of the first place word, all of them lawful. Refused, it names the first bad one, or
/// wants memory.
pub fn read_options(alloc: Global, action: Action, words: &[String]) -> Result<Options, WordsFault>
    requires some { 0 < length words.now }
    requires few { length words.now < 2 ^ 32 }
    ensures good { IfOk result (λ options. options_fault action (texts words.now) [] (options_in (texts words.now)) ≡ None) }
    ensures numbers { IfOk result (λ options. options.numbers.items ≡ options_in (texts words.now)) }
    ensures place { IfOk result (λ options. options.place ≡ place_in (texts words.now)) }
    ensures within { IfOk result (λ options. options.place ≤ length words.now) }
    ensures bad { IfErr result (IsFault (options_fault action (texts words.now) [] (options_in (texts words.now)))) }
{
    let mut numbers = Vec::new(alloc);
    let mut at = 1;
    while (at as usize) < words.len() && begins_with_dash(word_at(words, at as usize)) {
        let behind = judge_option(action, words, numbers.as_slice(), at)?;
        push_number(&mut numbers, at)?;
        at = behind;
    }
    Ok(Options { numbers, place: at })
}

fn push_number(numbers: &mut Vec<u32>, number: u32) -> Result<(), NoMemory>
    ensures { OnOk result (numbers.new.items ≡ numbers.old.items ++ number ∷ []) }
{
    numbers.push(number)?;
    Ok(())
}

fn begins_with_dash(word: &str) -> bool
    ensures { result ≡ begins_with_dash word.now }
{
    match word.as_bytes() {
        [b'-', ..] => true,
        _ => false,
    }
}

// Judges the option of this number, behind those options, and its value. Gives the number of the word that
// follows them.
#[tactic(auto, unfolding(crate::specs::Words::option_fault))]
fn judge_option(action: Action, words: &[String], earlier: &[u32], at: u32) -> Result<u32, BadWord>
    requires here { at < length words.now }
    requires few { length words.now < 2 ^ 32 }
    ensures good { IfOk result (λ next. option_fault action (texts words.now) earlier.now at ≡ None) }
    ensures next { IfOk result (λ next. next ≡ behind (texts words.now) at) }
    ensures within { IfOk result (λ next. next ≤ length words.now) }
    ensures bad { IfErr result (λ bad. option_fault action (texts words.now) earlier.now at ≡ Some bad) }
{
    let name = word_at(words, at as usize);
    let form = form_of(name);
    if let Some(why) = option_why(action, form, words, earlier, name) {
        return Err(BadWord { word: at, why });
    }
    if let Some(bad) = value_fault(form, words, at + 1) {
        return Err(bad);
    }
    if is_followed(form) {
        Ok(at + 2)
    } else {
        Ok(at + 1)
    }
}

// How often the option of this name is among these.
fn count_named(words: &[String], options: &[u32], name: &str) -> usize
    ensures { result ≡ count_named (texts words.now) options.now name.now }
{
    let mut count = 0;
    for &at in options {
        if word_at(words, at as usize) == name {
            count += 1;
        }
    }
    count
}

fn is_followed(form: Option<OptionForm>) -> bool
    ensures { result ≡ is_followed form }
{
    match form {
        Some(form) => takes_value(form.value),
        None => false,
    }
}

fn takes_value(value: ValueKind) -> bool
    ensures { result ≡ takes_value value }
{
    match value {
        ValueKind::Nothing => false,
        _ => true,
    }
}

// Why an option of this name is bad, behind those options.
fn option_why(
    action: Action,
    form: Option<OptionForm>,
    words: &[String],
    earlier: &[u32],
    name: &str,
) -> Option<Why>
    ensures { result ≡ option_why action form (count_named (texts words.now) earlier.now name.now) }
{
    match form {
        Some(form) if is_for(action, form.value) => often_why(form.often, words, earlier, name),
        _ => Some(Why::UnknownOption),
    }
}

// A list is for a scan alone.
fn is_for(action: Action, value: ValueKind) -> bool
    ensures { result ≡ is_for action value }
{
    match (action, value) {
        (Action::Generate, ValueKind::List) => false,
        _ => true,
    }
}

// Options that may be given any number of times are not counted, since there may be very many.
fn often_why(often: Often, words: &[String], earlier: &[u32], name: &str) -> Option<Why>
    ensures { result ≡ often_why often (count_named (texts words.now) earlier.now name.now) }
{
    match often {
        Often::Always => None,
        Often::Once => (count_named(words, earlier, name) != 0).then_some(Why::Twice),
        Often::AtMost(most) => {
            (count_named(words, earlier, name) >= most).then_some(Why::TooMany)
        }
    }
}

// What is bad of the value that is the word of this number.
fn value_fault(form: Option<OptionForm>, words: &[String], at: u32) -> Option<BadWord>
    ensures { result ≡ value_fault form (texts words.now) at }
{
    let form = form?;
    if !takes_value(form.value) {
        return None;
    }
    if at as usize >= words.len() {
        let why = Why::ValueMissing;
        return Some(BadWord { word: at, why });
    }
    let why = value_why(form.value, word_at(words, at as usize))?;
    Some(BadWord { word: at, why })
}

// Why a word is bad as a value.
fn value_why(value: ValueKind, word: &str) -> Option<Why>
    ensures { result ≡ value_why value word.now }
{
    match value {
        ValueKind::Scanner if scanner_of(word).is_none() => Some(Why::UnknownScanner),
        ValueKind::Number(range) if number_in(word, range).is_none() => Some(Why::BadNumber),
        ValueKind::Text if !is_text(word) => Some(Why::BadText),
        _ => None,
    }
}
