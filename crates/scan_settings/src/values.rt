// The values of options: numbers, scanners and texts.
ghost use Rattle.std.specs.Prelude.{◌≡◌, ◌≤◌, IfSome};
ghost use Rattle.scan_settings.specs.Values.{number_of, number_in, scanner_in, scanner_of, is_text};

use byte_kit::dec_read;
use forensic_path::Scanner;

/// The most bytes of a keyword or of a pattern's text.
pub const TEXT_MOST: usize = 256;

/// Which numbers may be given, and which one holds where none is.
#[derive(Clone, Copy)]
pub struct NumberRange {
    /// The least number.
    pub least: u64,
    /// The greatest number.
    pub greatest: u64,
    /// The number that holds where none is given.
    pub default: u64,
}

// The scanners, each of which has its name.
const SCANNERS: &[Scanner] = &[
    Scanner::Url,
    Scanner::Domain,
    Scanner::Net,
    Scanner::Exec,
    Scanner::Unread,
    Scanner::Find,
    Scanner::Word,
    Scanner::Base64,
    Scanner::Hex,
    Scanner::Utf16,
];

/// The number that a word is, in decimal and of the range. None where it is no such number.
#[tactic(auto, unfolding(crate::specs::Values::number_in))]
pub fn number_in(word: &str, range: NumberRange) -> Option<u64>
    ensures number { result ≡ number_in range word.now }
    ensures most { IfSome result (λ number. number ≤ range.greatest) }
{
    let number = number_of(word)?;
    if range.least <= number && number <= range.greatest {
        Some(number)
    } else {
        None
    }
}

// The number that a word is, in decimal. None where it is no number below 2^64.
fn number_of(word: &str) -> Option<u64>
    ensures { result ≡ number_of word.now }
{
    let number = dec_read(word.as_bytes())?;
    Some(number)
}

/// The scanner that a word names.
pub fn scanner_of(word: &str) -> Option<Scanner>
    ensures { result ≡ scanner_of word.now }
{
    scanner_in(SCANNERS, word)
}

// The one of these scanners that a word names.
fn scanner_in(scanners: &[Scanner], word: &str) -> Option<Scanner>
    ensures { result ≡ scanner_in scanners.now word.now }
{
    for &scanner in scanners {
        if scanner.word() == word {
            return Some(scanner);
        }
    }
    None
}

/// Whether a word may be a keyword or a pattern: 1 to `TEXT_MOST` bytes.
pub fn is_text(word: &str) -> bool
    ensures { result ≡ is_text word.now }
{
    !word.is_empty() && word.len() <= TEXT_MOST
}
