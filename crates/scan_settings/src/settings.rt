// The settings, and how the options among the words give them.
ghost use Rattle.std.specs.Prelude.{◌≡◌, ◌≤◌, ◌<◌, IfOk, codes};
ghost use Rattle.scan_settings.specs.Settings.{texts, word_at, value_at, given_at, number_given, values_given, value_given, scanners_given, with_scanner, without_scanner, switched, plan_given, settings_given};

use crate::options::{
    CONTEXT, DEPTH, MARGIN, MASK, PAGE, SPOOL_LIMIT, WORD_MAX, WORD_MIN, WORKERS,
};
use crate::values::{NumberRange, number_in, scanner_of};
use byte_kit::{Bytes, Name, Names, NoMemory, Texts};
use forensic_path::Scanner;
use std::alloc::Global;

/// The scanners that are on by default, a bit each (`Scanner::bit`): all but that of words.
pub const SCANNERS: u16 = 0x03BF;

/// The first number with a bit that stands for no scanner.
pub const SCANNERS_END: u16 = 0x0400;

/// What a scan looks for, and how deep.
#[derive(Drop)]
pub struct Plan {
    /// The scanners and decoders that are on, a bit each (`Scanner::bit`).
    pub scanners: u16,
    /// How many buffers deep decoded bytes are searched, 0 to 7.
    pub depth: u8,
    /// The mask of the XOR view, or 0 for none.
    pub mask: u8,
    /// The fewest bytes of a word, 1 to `word_max`.
    pub word_min: u16,
    /// The most bytes of a word, up to 256.
    pub word_max: u16,
    /// How many bytes of context a feature has on either side, up to 128.
    pub context: u16,
    /// The keywords, at most 64 of 1 to 256 bytes.
    pub keywords: Texts,
    /// The patterns' texts, at most 4 of 1 to 256 bytes.
    pub patterns: Names,
}

/// All that options set.
#[derive(Drop)]
pub struct Settings {
    /// How many bytes a page has, 512 to 16,777,216.
    pub page: u64,
    /// How many bytes behind a page are read with it, 131,072 to 4,194,304.
    pub margin: u64,
    /// How many workers scan, 1 to 8.
    pub workers: u8,
    /// What a scan looks for.
    pub plan: Plan,
    /// The name of the stop list.
    pub stop: Option<Name>,
    /// The name of the alert list.
    pub alert: Option<Name>,
    /// How many bytes the spool may have, 1 to 2^48.
    pub limit: u64,
    /// Whether the text of a scan has its log.
    pub with_log: bool,
}

/// The word of this number; past the end it is empty.
pub fn word_at(words: &[String], at: usize) -> &str
    ensures { result.now ≡ word_at (texts words.now) at }
{
    match words.get(at) {
        Some(word) => word.as_str(),
        None => "",
    }
}

/// The first of these options that has this name.
#[tactic(auto, unfolding(crate::specs::Settings::given_at))]
pub fn given_at(words: &[String], options: &[u32], name: &str) -> Option<u32>
    ensures { result ≡ given_at (texts words.now) options.now name.now }
{
    for &at in options {
        if word_at(words, at as usize) == name {
            return Some(at);
        }
    }
    None
}

// The word behind an option.
fn value_at(words: &[String], at: u32) -> &str
    ensures { result.now ≡ value_at (texts words.now) at }
{
    word_at(words, at as usize + 1)
}

/// The number that the option of this name gives, or else the one that holds without it.
#[tactic(auto, unfolding(crate::specs::Settings::number_given))]
pub fn number_given(words: &[String], options: &[u32], name: &str, range: NumberRange) -> u64
    requires { range.default ≤ range.greatest }
    ensures number { result ≡ number_given (texts words.now) options.now name.now range }
    ensures most { result ≤ range.greatest }
{
    let Some(at) = given_at(words, options, name) else {
        return range.default;
    };
    match number_in(value_at(words, at), range) {
        Some(number) => number,
        None => range.default,
    }
}

// The value of the option of this name. Its one refusal is want of memory.
#[tactic(auto, unfolding(crate::specs::Settings::value_given))]
fn value_given(
    alloc: Global,
    words: &[String],
    options: &[u32],
    name: &str,
) -> Result<Option<Name>, NoMemory>
    ensures { IfOk result (λ value. value ≡ value_given (texts words.now) options.now name.now) }
{
    match given_at(words, options, name) {
        Some(at) => Ok(Some(Name::copy(alloc, value_at(words, at))?)),
        None => Ok(None),
    }
}

// The values of all options `--find`, in order. Its one refusal is want of memory.
#[tactic(auto, unfolding(crate::specs::Settings::values_given))]
fn keywords_given(alloc: Global, words: &[String], options: &[u32]) -> Result<Texts, NoMemory>
    ensures { IfOk result (λ keywords. keywords ≡ values_given (texts words.now) options.now (codes "--find")) }
{
    let mut keywords = Texts::make(alloc);
    for &at in options {
        if word_at(words, at as usize) == "--find" {
            keywords.add(Bytes::copy(alloc, value_at(words, at).as_bytes())?)?;
        }
    }
    Ok(keywords)
}

// The values of all options `--pattern`, in order. Its one refusal is want of memory.
#[tactic(auto, unfolding(crate::specs::Settings::values_given))]
fn patterns_given(alloc: Global, words: &[String], options: &[u32]) -> Result<Names, NoMemory>
    ensures { IfOk result (λ patterns. patterns ≡ values_given (texts words.now) options.now (codes "--pattern")) }
{
    let mut patterns = Names::make(alloc);
    for &at in options {
        if word_at(words, at as usize) == "--pattern" {
            patterns.add(Name::copy(alloc, value_at(words, at))?)?;
        }
    }
    Ok(patterns)
}

// The scanners with this one on.
fn with_scanner(scanners: u16, scanner: Scanner) -> u16
    requires { scanners < 1024 }
    ensures with { result ≡ with_scanner scanners scanner }
    ensures below { result < 1024 }
{
    if scanner.is_on(scanners) {
        scanners
    } else {
        scanners + (1 << scanner.bit())
    }
}

// The scanners with this one off.
fn without_scanner(scanners: u16, scanner: Scanner) -> u16
    requires { scanners < 1024 }
    ensures without { result ≡ without_scanner scanners scanner }
    ensures below { result < 1024 }
{
    if scanner.is_on(scanners) {
        scanners - (1 << scanner.bit())
    } else {
        scanners
    }
}

// The scanners behind this option.
fn switched(words: &[String], scanners: u16, at: u32) -> u16
    requires { scanners < 1024 }
    ensures switched { result ≡ switched (texts words.now) scanners at }
    ensures below { result < 1024 }
{
    let word = word_at(words, at as usize);
    let Some(scanner) = scanner_of(value_at(words, at)) else {
        return scanners;
    };
    if word == "-e" {
        with_scanner(scanners, scanner)
    } else if word == "-x" {
        without_scanner(scanners, scanner)
    } else {
        scanners
    }
}

// The scanners that are on: `-e` and `-x` are applied from left to right.
#[tactic(auto, unfolding(crate::specs::Settings::scanners_given))]
fn scanners_given(words: &[String], options: &[u32]) -> u16
    ensures given { result ≡ scanners_given (texts words.now) options.now }
    ensures below { result < 1024 }
{
    let mut scanners = SCANNERS;
    for &at in options {
        scanners = switched(words, scanners, at);
    }
    scanners
}

// What a scan looks for by these options. Its one refusal is want of memory.
fn plan_given(alloc: Global, words: &[String], options: &[u32]) -> Result<Plan, NoMemory>
    ensures { IfOk result (λ plan. plan ≡ plan_given (texts words.now) options.now) }
{
    Ok(Plan {
        scanners: scanners_given(words, options),
        depth: number_given(words, options, "--depth", DEPTH) as u8,
        mask: number_given(words, options, "--xor", MASK) as u8,
        word_min: number_given(words, options, "--word-min", WORD_MIN) as u16,
        word_max: number_given(words, options, "--word-max", WORD_MAX) as u16,
        context: number_given(words, options, "--context", CONTEXT) as u16,
        keywords: keywords_given(alloc, words, options)?,
        patterns: patterns_given(alloc, words, options)?,
    })
}

/// The settings that these options give. Its one refusal is want of memory.
pub fn settings_given(
    alloc: Global,
    words: &[String],
    options: &[u32],
) -> Result<Settings, NoMemory>
    ensures { IfOk result (λ settings. settings ≡ settings_given (texts words.now) options.now) }
{
    Ok(Settings {
        page: number_given(words, options, "--page", PAGE),
        margin: number_given(words, options, "--margin", MARGIN),
        workers: number_given(words, options, "--workers", WORKERS) as u8,
        plan: plan_given(alloc, words, options)?,
        stop: value_given(alloc, words, options, "--stop")?,
        alert: value_given(alloc, words, options, "--alert")?,
        limit: number_given(words, options, "--spool-limit", SPOOL_LIMIT),
        with_log: given_at(words, options, "--log").is_some(),
    })
}
