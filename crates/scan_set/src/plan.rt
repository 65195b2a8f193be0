// What a scan looks for.
use byte_kit::{Names, Texts};

/// How many buffers deep decoded bytes are searched at most.
pub const DEPTH_MOST: u8 = 7;

/// What a scan looks for, and how deep.
#[derive(Drop)]
pub struct ScanPlan {
    /// The scanners and decoders that are on, a bit each (`Scanner::bit`).
    pub scanners: u16,
    /// How many buffers deep decoded bytes are searched, 0 to `DEPTH_MOST`.
    pub depth: u8,
    /// The mask of the XOR view, or 0 for none.
    pub mask: u8,
    /// The fewest bytes of a word, 1 to `word_max`.
    pub word_min: u16,
    /// The most bytes of a word, up to 256.
    pub word_max: u16,
    /// How many bytes of context a feature has on either side, up to 128.
    pub context: u16,
    /// The keywords, at most 64 of 1 to 256 bytes.
    pub keywords: Texts,
    /// The patterns' texts, at most 4 of 1 to 256 bytes.
    pub patterns: Names,
}
