// Judges the places of a command, and the words as a whole.
ghost use Rattle.std.specs.Prelude.{◌≡◌, ◌<◌, ◌≤◌, ◌^◌, length};
ghost use Rattle.scan_settings.specs.Settings.{texts, settings_given};
ghost use Rattle.scan_settings.specs.Words.{missing, number_fault, places_fault, bounds_fault};

use crate::action::Action;
use crate::fault::{BadWord, Why};
use crate::options::{WORD_MAX, WORD_MIN};
use crate::settings::{number_given, word_at};
use crate::values::{NumberRange, number_in};

/// The most place words of a scan: 64 parts, and the folder of the report.
pub const PLACES_MOST: usize = 65;

/// The numbers that an image may be made from.
pub const SEED: NumberRange = NumberRange {
    least: 0,
    greatest: 18_446_744_073_709_551_615,
    default: 0,
};

/// How many bytes an image that is made may have.
pub const SIZE: NumberRange = NumberRange {
    least: 0,
    greatest: 67_108_864,
    default: 0,
};

/// What is bad of the places, the first of which is the word of this number.
#[tactic(auto, unfolding(crate::specs::Words::places_fault))]
pub fn places_fault(action: Action, words: &[String], first: u32) -> Option<BadWord>
    requires within { first ≤ length words.now }
    requires few { length words.now < 2 ^ 32 }
    ensures { result ≡ places_fault action (texts words.now) first }
{
    match action {
        Action::Scan => scan_fault(words, first),
        Action::Generate => generate_fault(words, first),
    }
}

// The same of a scan, which has parts and a folder.
#[tactic(auto, unfolding(crate::specs::Words::places_fault))]
fn scan_fault(words: &[String], first: u32) -> Option<BadWord>
    requires within { first ≤ length words.now }
    requires few { length words.now < 2 ^ 32 }
    ensures { result ≡ places_fault Action.Scan (texts words.now) first }
{
    if words.len() - first as usize > PLACES_MOST {
        let why = Why::TooMany;
        let word = first + PLACES_MOST as u32;
        return Some(BadWord { word, why });
    }
    missing(words, first as usize + 1)
}

// The same of `generate`, whose places are a seed and a size.
#[tactic(auto, unfolding(crate::specs::Words::places_fault))]
fn generate_fault(words: &[String], first: u32) -> Option<BadWord>
    requires within { first ≤ length words.now }
    requires few { length words.now < 2 ^ 32 }
    ensures { result ≡ places_fault Action.Generate (texts words.now) first }
{
    if let Some(bad) = number_fault(SEED, words, first as usize) {
        return Some(bad);
    }
    if let Some(bad) = number_fault(SIZE, words, first as usize + 1) {
        return Some(bad);
    }
    if first as usize + 2 < words.len() {
        let why = Why::ExtraWord;
        return Some(BadWord {
            word: first + 2,
            why,
        });
    }
    None
}

// The word of this number is missing.
fn missing(words: &[String], at: usize) -> Option<BadWord>
    requires { length words.now < 2 ^ 32 }
    ensures { result ≡ missing (texts words.now) at }
{
    if at < words.len() {
        return None;
    }
    let word = words.len() as u32;
    let why = Why::PlaceMissing;
    Some(BadWord { word, why })
}

// The word of this number is no number of the range.
fn number_fault(range: NumberRange, words: &[String], at: usize) -> Option<BadWord>
    requires { length words.now < 2 ^ 32 }
    ensures { result ≡ number_fault range (texts words.now) at }
{
    if let Some(bad) = missing(words, at) {
        return Some(bad);
    }
    if number_in(word_at(words, at), range).is_some() {
        return None;
    }
    let why = Why::BadNumber;
    Some(BadWord {
        word: at as u32,
        why,
    })
}

/// The bounds of words that these options give, where they are crossed.
#[tactic(auto, unfolding(crate::specs::Settings::settings_given, crate::specs::Settings::plan_given))]
pub fn bounds_fault(words: &[String], options: &[u32]) -> Option<BadWord>
    requires { length words.now < 2 ^ 32 }
    ensures { result ≡ bounds_fault (texts words.now) (settings_given (texts words.now) options.now) }
{
    let least = number_given(words, options, "--word-min", WORD_MIN);
    let most = number_given(words, options, "--word-max", WORD_MAX);
    if least <= most {
        return None;
    }
    let why = Why::WordBounds;
    Some(BadWord {
        word: words.len() as u32,
        why,
    })
}
