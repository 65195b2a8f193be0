// Parts of an image, read as one.
ghost use Rattle.std.specs.Prelude.{◌≡◌, ◌+◌, ◌-◌, ◌^◌, ◌<◌, ◌≤◌, length, map, [], take, drop, IsTrue, OnOk, IfOk, IfErr, IfSome, IsSomeAnd, slice_get};
ghost use Rattle.std.specs.List.{All};
ghost use Rattle.byte_kit.specs.Counts.{CountsFault};
ghost use Rattle.host_source.specs.Source.{IsDetached};
ghost use Rattle.image_source.specs.declared.parts.TheConstants.{PARTS_MOST};
ghost use Rattle.image_source.specs.Faults.{IsPartsCall, IsFaultOf};
ghost use Rattle.image_source.specs.Image.{joined, size_of, AreAttached, IsAttachedBelow};
ghost use Rattle.image_source.specs.Inside.{slots_of};

use crate::PartsFault;
use crate::attach::{Part, attach_all};
use crate::held::Held;
use crate::read::read_parts;
use byte_kit::Name;
use host_source::{Source, SourceFault};
use std::alloc::Global;
use std::marker::Model;

/// How many parts an image has at most.
pub const PARTS_MOST: usize = 64;

/// The parts of an image, attached to the slots of a source in their order, with the bytes that were lent
/// last. Contracts see the source, and the name and the size of each part.
#[derive(Drop)]
pub struct Parts<S: Source> {
    source: S,
    parts: Vec<Part>,
    size: u64,
    held: Held,
}

impl<S: Source> Model for Parts<S> {
    ghost use Rattle.image_source.specs.Image.{Image};
    ghost use Rattle.image_source.specs.Inside.{slots_of, held_bytes, IsInside};

    ghost Value = { Image S };

    ghost view = { λ parts. record { source = parts.source; parts = slots_of parts.parts.items; window = held_bytes parts.held } };

    ghost invariant = { λ parts. IsInside (S.nature parts.source) (S.slots parts.source) parts.parts.items parts.size parts.held };
}

impl<S: Source> Parts<S> {
    /// The image of the parts of these names. It attaches them to the source's slots from 0 on, in
    /// their order. It asks for 1 to `PARTS_MOST` names that the source may be asked for, and for a
    /// source with no slot attached. Its refusals are a fault of the source, and want of memory; the
    /// source is handed back with them.
    pub fn attach(alloc: Global, mut source: S, names: &[Name]) -> Result<Parts<S>, (S, PartsFault)>
        requires some { 1 ≤ length names.now }
        requires most { length names.now ≤ PARTS_MOST }
        requires detached { IsDetached (S.slots source) }
        requires asked { All (λ name. IsTrue ((S.nature source).may_attach name)) names.now }
        ensures window { IfOk result (λ image. image.window ≡ []) }
        ensures named { IfOk result (λ image. map (λ part. part.name) image.parts ≡ names.now) }
        ensures count { IfOk result (λ image. length image.parts ≡ length names.now) }
        ensures nature { IfOk result (λ image. S.nature image.source ≡ S.nature source) }
        ensures faults { IfOk result (λ image. S.faults image.source ≡ S.faults source) }
        ensures same { IfErr result (λ refused. S.nature refused.0 ≡ S.nature source) }
        ensures later { IfErr result (λ refused. S.faults source ≤ S.faults refused.0) }
        ensures below { IfErr result (λ refused. IsAttachedBelow (length names.now) (S.slots refused.0)) }
        ensures cause { IfErr result (λ refused. IsFaultOf (S.faults source) (S.faults refused.0) refused.1) }
    {
        match attach_all(alloc, &mut source, names) {
            Ok(parts) => Ok(Parts {
                size: size_of(parts.as_slice()),
                source,
                parts,
                held: Held::make(alloc),
            }),
            Err(fault) => Err((source, fault)),
        }
    }

    /// How many bytes the image has: fewer than 2^63.
    pub fn size(&self) -> u64
        ensures sum { result ≡ size_of self.now.parts }
        ensures told { IfSome (joined (S.nature self.now.source) self.now.parts) (λ bytes. result ≡ length bytes) }
        ensures small { result < 2 ^ 63 }
    {
        self.size
    }

    /// How many bytes a part has. Parts are counted from 0 on; it asks for one that is there.
    pub fn part_size(&self, part: u32) -> u64
        requires { part < length self.now.parts }
        ensures { IsSomeAnd (slice_get self.now.parts part) (λ slot. result ≡ slot.size) }
    {
        self.parts[part as usize].size
    }

    /// Fills `into` with the image's bytes from place `at` on, by one call of the source for each part
    /// that they touch. It asks that so many bytes are there. Its one refusal is a fault of the source;
    /// `into` then holds any bytes. It takes no memory.
    pub fn read_at(&mut self, at: u64, into: &mut [u8]) -> Result<(), SourceFault>
        requires within { at + length into.old ≤ size_of self.old.parts }
        ensures same { S.nature self.new.source ≡ S.nature self.old.source }
        ensures parts { self.new.parts ≡ self.old.parts }
        ensures window { self.new.window ≡ self.old.window }
        ensures read { OnOk result (IfSome (joined (S.nature self.old.source) self.old.parts) (λ bytes. into.new ≡ take (length into.new) (drop at bytes))) }
        ensures cause { CountsFault (S.faults self.old.source) (S.faults self.new.source) result }
    {
        read_parts(&mut self.source, self.parts.as_slice(), at, into)
    }

    /// Loads the image's bytes from place `from` up to `to` as the window. Those that the last window had
    /// are kept, and only what stands behind them is read, where this one begins among them or right
    /// behind them: so an image that is gone through window by window is read once, although they share
    /// bytes. It asks that the range is within the image. Its refusals are a fault of the source, and
    /// want of memory; the window then has any bytes, and the parts can be used again.
    pub fn load(&mut self, from: u64, to: u64) -> Result<(), PartsFault>
        requires ordered { from ≤ to }
        requires within { to ≤ size_of self.old.parts }
        ensures same { S.nature self.new.source ≡ S.nature self.old.source }
        ensures parts { self.new.parts ≡ self.old.parts }
        ensures length { OnOk result (length self.new.window ≡ to - from) }
        ensures bytes { OnOk result (IfSome (joined (S.nature self.old.source) self.old.parts) (λ bytes. self.new.window ≡ take (to - from) (drop from bytes))) }
        ensures cause { IsPartsCall (S.faults self.old.source) (S.faults self.new.source) result }
    {
        self.held
            .load(&mut self.source, self.parts.as_slice(), from, to)
    }

    /// Lets go of the window's bytes, and keeps its room: all bytes of the next window are read.
    pub fn unload(&mut self)
        ensures source { self.new.source ≡ self.old.source }
        ensures parts { self.new.parts ≡ self.old.parts }
        ensures window { self.new.window ≡ [] }
    {
        self.held.clear();
    }

    /// The bytes that were loaded last, lent.
    pub fn window(&self) -> &[u8]
        ensures { result.now ≡ self.now.window }
    {
        let (held, _) = self.held.room.as_slice().split_at(self.held.count);
        held
    }

    /// The source, with the parts still attached to its slots, and nothing to the slots behind them.
    pub fn into_source(self) -> S
        ensures source { result ≡ self.source }
        ensures attached { AreAttached (S.slots result) self.parts }
    {
        self.source
    }
}

// How many bytes the parts have together.
fn size_of(parts: &[Part]) -> u64
    requires most { length parts.now ≤ PARTS_MOST }
    requires small { size_of (slots_of parts.now) < 2 ^ 63 }
    ensures { result ≡ size_of (slots_of parts.now) }
{
    let mut size = 0;
    for part in parts {
        size += part.size;
    }
    size
}
