// The options, a row each.
ghost use Rattle.std.specs.Prelude.{◌≡◌, map};
ghost use Rattle.scan_settings.specs.Options.{row_of, form_in, form_of};

use crate::values::NumberRange;

/// How often an option may be given.
#[derive(Clone, Copy)]
pub enum Often {
    /// Any number of times.
    Always,
    /// Once.
    Once,
    /// At most so many times.
    AtMost(usize),
}

/// What the value of an option is.
#[derive(Clone, Copy)]
pub enum ValueKind {
    /// It has none.
    Nothing,
    /// A scanner's name.
    Scanner,
    /// A decimal of this range.
    Number(NumberRange),
    /// A text of 1 to 256 bytes.
    Text,
    /// The name of a list, which a scan alone has.
    List,
}

/// What an option takes, and how often it may be given.
#[derive(Clone, Copy)]
pub struct OptionForm {
    /// How often it may be given.
    pub often: Often,
    /// What its value is.
    pub value: ValueKind,
}

/// How many bytes a page has.
pub const PAGE: NumberRange = NumberRange {
    least: 512,
    greatest: 16_777_216,
    default: 16_777_216,
};

/// How many bytes behind a page are read with it.
pub const MARGIN: NumberRange = NumberRange {
    least: 131_072,
    greatest: 4_194_304,
    default: 4_194_304,
};

/// How many workers scan.
pub const WORKERS: NumberRange = NumberRange {
    least: 1,
    greatest: 8,
    default: 4,
};

/// How many buffers deep decoded bytes are searched.
pub const DEPTH: NumberRange = NumberRange {
    least: 0,
    greatest: 7,
    default: 5,
};

/// The mask of the XOR view; 0, where none is given, is no mask.
pub const MASK: NumberRange = NumberRange {
    least: 1,
    greatest: 255,
    default: 0,
};

/// The fewest bytes of a word.
pub const WORD_MIN: NumberRange = NumberRange {
    least: 1,
    greatest: 256,
    default: 6,
};

/// The most bytes of a word.
pub const WORD_MAX: NumberRange = NumberRange {
    least: 1,
    greatest: 256,
    default: 14,
};

/// How many bytes of context a feature has on either side.
pub const CONTEXT: NumberRange = NumberRange {
    least: 0,
    greatest: 128,
    default: 16,
};

/// How many bytes the spool may have.
pub const SPOOL_LIMIT: NumberRange = NumberRange {
    least: 1,
    greatest: 281_474_976_710_656,
    default: 1_099_511_627_776,
};

/// The most keywords.
pub const KEYWORDS_MOST: usize = 64;

/// The most patterns.
pub const PATTERNS_MOST: usize = 4;

// The name of each option, how often it may be given, and what its value is.
const OPTIONS: &[(&str, Often, ValueKind)] = &[
    ("-e", Often::Always, ValueKind::Scanner),
    ("-x", Often::Always, ValueKind::Scanner),
    ("--page", Often::Once, ValueKind::Number(PAGE)),
    ("--margin", Often::Once, ValueKind::Number(MARGIN)),
    ("--workers", Often::Once, ValueKind::Number(WORKERS)),
    ("--depth", Often::Once, ValueKind::Number(DEPTH)),
    ("--xor", Often::Once, ValueKind::Number(MASK)),
    ("--word-min", Often::Once, ValueKind::Number(WORD_MIN)),
    ("--word-max", Often::Once, ValueKind::Number(WORD_MAX)),
    ("--context", Often::Once, ValueKind::Number(CONTEXT)),
    ("--find", Often::AtMost(KEYWORDS_MOST), ValueKind::Text),
    ("--pattern", Often::AtMost(PATTERNS_MOST), ValueKind::Text),
    ("--stop", Often::Once, ValueKind::List),
    ("--alert", Often::Once, ValueKind::List),
    ("--spool-limit", Often::Once, ValueKind::Number(SPOOL_LIMIT)),
    ("--log", Often::Once, ValueKind::Nothing),
];

/// What the option of this name takes. None where there is no such option.
pub fn form_of(word: &str) -> Option<OptionForm>
    ensures { result ≡ form_of word.now }
{
    form_in(OPTIONS, word)
}

// What the first of these rows of this name says.
fn form_in(rows: &[(&str, Often, ValueKind)], word: &str) -> Option<OptionForm>
    ensures { result ≡ form_in (map row_of rows.now) word.now }
{
    for &(name, often, value) in rows {
        if name == word {
            return Some(OptionForm { often, value });
        }
    }
    None
}
