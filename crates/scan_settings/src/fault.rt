// Why words are refused.

use byte_kit::NoMemory;
use std::fmt;

/// Why a word is bad.
#[derive(Clone, Copy, Debug, PartialEq, Eq)]
pub enum Why {
    /// There is no word.
    NoCommand,
    /// Word 0 is no command.
    UnknownCommand,
    /// A word in an option's place is no option of the command.
    UnknownOption,
    /// An option that may be given once is given again.
    Twice,
    /// There are more place words than a scan takes, or an option is given once too often.
    TooMany,
    /// The value of an option is missing.
    ValueMissing,
    /// A word is no decimal of the range that is asked for.
    BadNumber,
    /// A word names no scanner.
    UnknownScanner,
    /// A keyword or a pattern has no byte, or more than 256.
    BadText,
    /// A third place word of `generate`.
    ExtraWord,
    /// There are fewer than two place words.
    PlaceMissing,
    /// The fewest bytes of a word are more than the most, and no word is bad otherwise.
    WordBounds,
}

impl Why {
    ghost use Rattle.std.specs.Prelude.{◌≡◌};
    ghost use Rattle.scan_settings.specs.Faults.{why_text};

    /// What a usage line says of it.
    pub fn text(self) -> &'static str
        ensures { result.now ≡ why_text self }
    {
        match self {
            Why::NoCommand => "no command",
            Why::UnknownCommand => "unknown command",
            Why::UnknownOption => "unknown option",
            Why::Twice => "option given twice",
            Why::TooMany => "too many",
            Why::ValueMissing => "value missing",
            Why::BadNumber => "bad number",
            Why::UnknownScanner => "unknown scanner",
            Why::BadText => "bad text",
            Why::ExtraWord => "extra word",
            Why::PlaceMissing => "place missing",
            Why::WordBounds => "word bounds crossed",
        }
    }
}

impl fmt::Display for Why {
    ghost use Rattle.std.specs.Prelude.{Some};
    ghost use Rattle.scan_settings.specs.Faults.{why_text};

    ghost output = { λ why. Some (why_text why) };

    fn fmt<W: fmt::Write>(&self, f: &mut fmt::Formatter<W>) -> fmt::Result {
        f.write_str(self.text())
    }
}

/// A bad word by its number, counted from 0. What is missing at the end has the number of words.
#[derive(Clone, Copy, Debug, PartialEq, Eq)]
pub struct BadWord {
    pub word: u32,
    pub why: Why,
}

/// Why words are refused.
#[derive(Clone, Copy, Debug, PartialEq, Eq)]
pub enum WordsFault {
    /// The word of this number, counted from 0, is the first bad one.
    Usage { word: u32, why: Why },
    /// The allocator had no room.
    NoMemory,
}

impl From<NoMemory> for WordsFault {
    ghost use Rattle.std.specs.Prelude.{◌≡◌};
    ghost use Rattle.scan_settings.specs.declared.fault.WordsFault.{WordsFault};

    ghost from_gives = { λ memory fault. fault ≡ WordsFault.NoMemory };

    fn from(_: NoMemory) -> Self {
        WordsFault::NoMemory
    }
}

impl From<BadWord> for WordsFault {
    ghost use Rattle.std.specs.Prelude.{◌≡◌};
    ghost use Rattle.scan_settings.specs.Faults.{refusal_of};

    ghost from_gives = { λ bad fault. fault ≡ refusal_of bad };

    fn from(bad: BadWord) -> Self {
        WordsFault::Usage {
            word: bad.word,
            why: bad.why,
        }
    }
}
