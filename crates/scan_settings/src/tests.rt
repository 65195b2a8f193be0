ghost use Rattle.std.specs.Prelude.{IfOk};
ghost use Rattle.scan_settings.specs.Lawful.{AreSettings, IsLawful};

use crate::{Command, Settings, Why, WordsFault, read_words};
use byte_kit::NoMemory;
use std::alloc::Global;

mod bad_words;
mod record;
mod settings;

// More words than any test has.
const WORDS_MOST: usize = 200;

// What these words are read as.
fn read(alloc: Global, words: &[&str]) -> Result<Result<Command, WordsFault>, NoMemory>
    ensures { IfOk result (λ read. IfOk read IsLawful) }
{
    let mut texts = Vec::new(alloc);
    for word in words {
        texts.push(String::from_str(alloc, word)?)?;
    }
    if texts.len() > WORDS_MOST {
        return Err(NoMemory);
    }
    Ok(read_words(alloc, texts.as_slice()))
}

// The settings of a command.
fn settings_of(command: &Command) -> &Settings
    ensures { IsLawful command.now → AreSettings result.now }
{
    match command {
        Command::Scan { settings, .. } => settings,
        Command::Generate { settings, .. } => settings,
    }
}

// The words are refused so.
fn refuses(alloc: Global, words: &[&str], word: u32, why: Why) -> Result<bool, NoMemory> {
    match read(alloc, words)? {
        Ok(_) => Ok(false),
        Err(fault) => Ok(fault == WordsFault::Usage { word, why }),
    }
}
