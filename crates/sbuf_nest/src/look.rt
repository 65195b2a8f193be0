// The bytes around a place.

/// How many bytes ahead of a place a scanner may see.
pub const LOOK_BEFORE: usize = 128;

/// How many bytes from a place on a scanner may see.
pub const LOOK_AFTER: usize = 131072;

/// The bytes around a place: the last at most `LOOK_BEFORE` bytes ahead of it, and the at most
/// `LOOK_AFTER` bytes from it on, of which the first stands at the place.
#[derive(Clone, Copy)]
pub struct Look<'a> {
    pub before: &'a [u8],
    pub after: &'a [u8],
}
