// A buffer whose places are judged.
ghost use Rattle.std.specs.Prelude.{◌≡◌, ◌+◌, ◌^◌, ◌<◌, ◌≤◌, length, slice_range};
ghost use Rattle.sbuf_nest.specs.Around.{seen, look_at};

use crate::{LOOK_AFTER, LOOK_BEFORE, Look};

/// The bytes of an image's window, or of a decoded value, with the range of places that belong to
/// it. The bytes on either side of that range are seen from its places, and are owned by another buffer.
#[derive(Clone, Copy)]
pub struct Sbuf<'a> {
    /// All bytes that can be seen.
    pub bytes: &'a [u8],
    /// The first place that the buffer owns.
    pub own_from: usize,
    /// The place behind the last one that it owns.
    pub own_to: usize,
    /// The place in the image of byte 0; 0 for a decoded value.
    pub base: u64,
    ghost ordered: { own_from ≤ own_to },
    ghost within: { own_to ≤ length bytes.now },
    ghost placed: { base + length bytes.now < 2 ^ 63 },
}

impl<'a> Sbuf<'a> {
    /// A buffer that owns the places from `own_from` up to `own_to`, whose byte 0 stands at `base` in the image.
    pub fn of(bytes: &'a [u8], own_from: usize, own_to: usize, base: u64) -> Sbuf<'a>
        requires ordered { own_from ≤ own_to }
        requires within { own_to ≤ length bytes.now }
        requires placed { base + length bytes.now < 2 ^ 63 }
        ensures bytes { result.bytes.now ≡ bytes.now }
        ensures own_from { result.own_from ≡ own_from }
        ensures own_to { result.own_to ≡ own_to }
        ensures base { result.base ≡ base }
    {
        Sbuf {
            bytes,
            own_from,
            own_to,
            base,
        }
    }

    /// The buffer of a decoded value: it owns all of its places, and counts them from 0.
    pub fn child(bytes: &'a [u8]) -> Sbuf<'a>
        ensures bytes { result.bytes.now ≡ bytes.now }
        ensures own_from { result.own_from ≡ 0 }
        ensures own_to { result.own_to ≡ length bytes.now }
        ensures base { result.base ≡ 0 }
    {
        Sbuf::of(bytes, 0, bytes.len(), 0)
    }

    /// The Look of place `i`: the bytes around it, lent. Places that the buffer doesn't own have one too.
    pub fn look(&self, i: usize) -> Look<'a>
        requires { i < length self.now.bytes.now }
        ensures { seen result ≡ look_at self.now.bytes.now i }
    {
        let (ahead, rest) = self.bytes.split_at(i);
        let (_, before) = ahead.split_at(i.saturating_sub(LOOK_BEFORE));
        let (after, _) = rest.split_at(LOOK_AFTER.min(rest.len()));
        Look { before, after }
    }

    /// How many bytes can be seen.
    pub fn len(&self) -> usize
        ensures { result ≡ length self.now.bytes.now }
    {
        self.bytes.len()
    }

    /// The first place that the buffer owns.
    pub fn own_from(&self) -> usize
        ensures { result ≡ self.now.own_from }
    {
        self.own_from
    }

    /// The place behind the last one that the buffer owns.
    pub fn own_to(&self) -> usize
        ensures { result ≡ self.now.own_to }
    {
        self.own_to
    }

    /// The bytes that the buffer owns, lent.
    pub fn own(&self) -> &'a [u8]
        ensures { result.now ≡ slice_range self.now.bytes.now self.now.own_from self.now.own_to }
    {
        self.part(self.own_from, self.own_to)
    }

    /// The bytes from place `from` up to place `to`, lent.
    pub fn part(&self, from: usize, to: usize) -> &'a [u8]
        requires ordered { from ≤ to }
        requires within { to ≤ length self.now.bytes.now }
        ensures { result.now ≡ slice_range self.now.bytes.now from to }
    {
        let bytes = self.bytes;
        &bytes[from..to]
    }

    /// The place in the image of place `i`, or of the end of the buffer.
    pub fn place(&self, i: usize) -> u64
        requires { i ≤ length self.now.bytes.now }
        ensures { result ≡ self.now.base + i }
    {
        self.base + i as u64
    }
}
