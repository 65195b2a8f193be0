// The words of the command line.
ghost use Rattle.std.specs.Prelude.{◌≡◌, ◌+◌, ◌<◌, ◌≤◌, ◌^◌, None, IfOk, IfErr, length};
ghost use Rattle.scan_settings.specs.Faults.{IsFault, IsRefused};
ghost use Rattle.scan_settings.specs.Lawful.{IsLawful};
ghost use Rattle.scan_settings.specs.Settings.{texts, settings_given};
ghost use Rattle.scan_settings.specs.Words.{options_in, place_in, rest_fault, words_fault, command_given, command_of};

use crate::action::{Action, action_of};
use crate::fault::{BadWord, Why, WordsFault};
use crate::judge::{Options, read_options};
use crate::places::{SEED, SIZE, bounds_fault, places_fault};
use crate::settings::{Settings, settings_given, word_at};
use crate::values::number_in;
use byte_kit::{Name, Names, NoMemory};
use std::alloc::Global;

/// What a command does.
#[derive(Drop)]
pub enum Command {
    /// Searches an image.
    Scan {
        settings: Settings,
        /// The parts of the image, in order: 1 to 64.
        parts: Names,
        /// The folder of the report.
        place: Name,
    },
    /// Makes an image, and searches it.
    Generate {
        settings: Settings,
        /// The number that the image is made from.
        seed: u64,
        /// How many bytes it has, at most 67,108,864.
        size: u64,
    },
}

/// The command that words give, or the first bad word of them, judged from left to right. What is missing at the
/// end has the number of words, and so have bounds of words that are crossed where nothing else is bad. Its other
/// refusal is want of memory.
pub fn read_words(alloc: Global, words: &[String]) -> Result<Command, WordsFault>
    requires { length words.now < 2 ^ 32 }
    ensures command { IfOk result (λ command. command_of (texts words.now) ≡ Ok command) }
    ensures lawful { IfOk result IsLawful }
    ensures bad { IfErr result (IsRefused (command_of (texts words.now))) }
{
    if words.is_empty() {
        return Err(WordsFault::Usage {
            word: 0,
            why: Why::NoCommand,
        });
    }
    let Some(action) = action_of(word_at(words, 0)) else {
        return Err(WordsFault::Usage {
            word: 0,
            why: Why::UnknownCommand,
        });
    };
    read_command(alloc, action, words)
}

// The command that words give behind this action, or the first bad word of them. Its other refusal is want of
// memory.
fn read_command(alloc: Global, action: Action, words: &[String]) -> Result<Command, WordsFault>
    requires some { 0 < length words.now }
    requires few { length words.now < 2 ^ 32 }
    ensures good { IfOk result (λ command. words_fault action (texts words.now) ≡ None) }
    ensures command { IfOk result (λ command. command ≡ command_given action (texts words.now)) }
    ensures lawful { IfOk result IsLawful }
    ensures bad { IfErr result (IsFault (words_fault action (texts words.now))) }
{
    let options = match read_options(alloc, action, words) {
        Ok(options) => options,
        Err(refusal) => return Err(refusal),
    };
    if let Some(bad) = rest_fault(action, words, &options) {
        return Err(WordsFault::from(bad));
    }
    match command_given(alloc, action, words, &options) {
        Ok(command) => Ok(command),
        Err(NoMemory) => Err(WordsFault::NoMemory),
    }
}

// What is bad behind the options, all of which are good.
#[tactic(auto, unfolding(crate::specs::Words::rest_fault))]
fn rest_fault(action: Action, words: &[String], options: &Options) -> Option<BadWord>
    requires few { length words.now < 2 ^ 32 }
    requires within { options.now.place ≤ length words.now }
    requires numbers { options.now.numbers.items ≡ options_in (texts words.now) }
    requires place { options.now.place ≡ place_in (texts words.now) }
    ensures { result ≡ rest_fault action (texts words.now) }
{
    if let Some(bad) = places_fault(action, words, options.place) {
        return Some(bad);
    }
    bounds_fault(words, options.numbers.as_slice())
}

// The command of lawful words. Its one refusal is want of memory.
fn command_given(
    alloc: Global,
    action: Action,
    words: &[String],
    options: &Options,
) -> Result<Command, NoMemory>
    requires numbers { options.now.numbers.items ≡ options_in (texts words.now) }
    requires place { options.now.place ≡ place_in (texts words.now) }
    requires places { options.now.place + 1 < length words.now }
    ensures { IfOk result (λ command. command ≡ command_given action (texts words.now)) }
{
    let settings = settings_given(alloc, words, options.numbers.as_slice())?;
    match action {
        Action::Scan => scan_given(alloc, settings, words, options.place),
        Action::Generate => Ok(generate_given(settings, words, options.place)),
    }
}

// The scan of these words, whose places begin at this number. Its one refusal is want of memory.
#[tactic(auto, unfolding(crate::specs::Words::command_given))]
fn scan_given(
    alloc: Global,
    settings: Settings,
    words: &[String],
    first: u32,
) -> Result<Command, NoMemory>
    requires settings { settings ≡ settings_given (texts words.now) (options_in (texts words.now)) }
    requires first { first ≡ place_in (texts words.now) }
    requires places { first + 1 < length words.now }
    ensures { IfOk result (λ command. command ≡ command_given Action.Scan (texts words.now)) }
{
    let last = words.len() - 1;
    let parts = names_of(alloc, &words[first as usize..last])?;
    let place = Name::copy(alloc, word_at(words, last))?;
    Ok(Command::Scan {
        settings,
        parts,
        place,
    })
}

// These words as names. Its one refusal is want of memory.
fn names_of(alloc: Global, words: &[String]) -> Result<Names, NoMemory>
    ensures { IfOk result (λ names. names ≡ texts words.now) }
{
    let mut names = Names::make(alloc);
    for word in words {
        names.add(Name::copy(alloc, word.as_str())?)?;
    }
    Ok(names)
}

// The command `generate` of these words, whose places begin at this number.
#[tactic(auto, unfolding(crate::specs::Words::command_given))]
fn generate_given(settings: Settings, words: &[String], first: u32) -> Command
    requires settings { settings ≡ settings_given (texts words.now) (options_in (texts words.now)) }
    requires first { first ≡ place_in (texts words.now) }
    ensures { result ≡ command_given Action.Generate (texts words.now) }
{
    let seed = number_in(word_at(words, first as usize), SEED).unwrap_or(0);
    let size = number_in(word_at(words, first as usize + 1), SIZE).unwrap_or(0);
    Command::Generate {
        settings,
        seed,
        size,
    }
}
