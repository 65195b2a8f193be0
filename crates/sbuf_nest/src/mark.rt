// What a search finds at a place.
use forensic_path::{Decoder, Kind};

/// An encoded text at a place.
#[derive(Clone, Copy, Debug, PartialEq, Eq)]
pub struct Extent {
    /// How many bytes of the place the text covers.
    pub bytes: u32,
    /// How many letters, digits or pairs it has.
    pub units: u32,
}

/// An encoded text that begins at a place of a buffer.
#[derive(Clone, Copy, Debug, PartialEq, Eq)]
pub struct Start {
    /// The place in the buffer.
    pub at: usize,
    /// What decodes it.
    pub by: Decoder,
    /// How far it goes.
    pub extent: Extent,
}

/// Something found at a place of a buffer.
#[derive(Clone, Copy, Debug, PartialEq, Eq)]
pub struct Mark {
    /// The place in the buffer.
    pub at: usize,
    /// What was found.
    pub kind: Kind,
    /// Which one of several of a kind that may stand at one place, from 0 on.
    pub which: u16,
    /// How many bytes of the place it covers.
    pub extent: u32,
}
