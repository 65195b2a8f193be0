// Bytes of an image that were read last.
//
// The room only grows, and its bytes stay where they are until a window is loaded that begins further on.
// So a window costs the reading of what is new in it, and a copy of what it has in common with the last one.
ghost use Rattle.std.specs.Prelude.{◌≡◌, ◌+◌, ◌-◌, ◌≤◌, length, take, drop, vec_len, [], ℕ, Option, List, IfSome, OnOk, IfErr};
ghost use Rattle.std.specs.List.{All};
ghost use Rattle.byte_kit.specs.Counts.{CountsFault};
ghost use Rattle.image_source.specs.declared.parts.TheConstants.{PARTS_MOST};
ghost use Rattle.image_source.specs.Faults.{IsPartsCall};
ghost use Rattle.image_source.specs.Image.{AreAttached, IsPart, joined, size_of};
ghost use Rattle.image_source.specs.Inside.{slots_of, held_bytes, IsHeldOf};

use crate::PartsFault;
use crate::attach::Part;
use crate::read::read_parts;
use host_source::{Source, SourceFault};
use std::alloc::Global;

// Bytes of an image from the place `from` on: the first `count` bytes of the room.
#[derive(Drop)]
pub struct Held {
    pub room: Vec<u8>,
    pub from: u64,
    pub count: usize,
}

impl Held {
    // No bytes. It takes no memory.
    pub(crate) fn make(alloc: Global) -> Held
        ensures empty { held_bytes result ≡ [] }
        ensures held { (size : ℕ) (bytes : Option (List ℕ)) → IsHeldOf size bytes result }
    {
        Held {
            room: Vec::new(alloc),
            from: 0,
            count: 0,
        }
    }

    // Lets go of all bytes.
    pub(crate) fn clear(&mut self)
        ensures empty { held_bytes self.new ≡ [] }
        ensures held { (size : ℕ) (bytes : Option (List ℕ)) → IsHeldOf size bytes self.old → IsHeldOf size bytes self.new }
    {
        self.count = 0;
    }

    // Holds the bytes from `from` up to `to`. Only those that weren't held are read.
    pub(crate) fn load<S: Source>(
        &mut self,
        source: &mut S,
        parts: &[Part],
        from: u64,
        to: u64,
    ) -> Result<(), PartsFault>
        requires most { length parts.now ≤ PARTS_MOST }
        requires attached { AreAttached (S.slots source.old) (slots_of parts.now) }
        requires parts { All (IsPart (S.nature source.old)) (slots_of parts.now) }
        requires ordered { from ≤ to }
        requires within { to ≤ size_of (slots_of parts.now) }
        requires held { IsHeldOf (size_of (slots_of parts.now)) (joined (S.nature source.old) (slots_of parts.now)) self.old }
        ensures same { S.nature source.new ≡ S.nature source.old }
        ensures slots { S.slots source.new ≡ S.slots source.old }
        ensures held { IsHeldOf (size_of (slots_of parts.now)) (joined (S.nature source.old) (slots_of parts.now)) self.new }
        ensures loaded { OnOk result ((self.new.from ≡ from) × (self.new.count ≡ to - from)) }
        ensures cause { IsPartsCall (S.faults source.old) (S.faults source.new) result }
    {
        let count = (to - from) as usize;
        self.slide_to(from, count);
        self.make_room(count)?;
        self.fill(source, parts, count)?;
        Ok(())
    }

    // Lets go of the bytes ahead of the place and of those behind so many, or of all where the place stands
    // neither among them nor right behind them.
    fn slide_to(&mut self, from: u64, most: usize)
        requires room { self.old.count ≤ vec_len self.old.room }
        ensures from { self.new.from ≡ from }
        ensures count { self.new.count ≤ most }
        ensures held { (size : ℕ) (bytes : Option (List ℕ)) → from ≤ size → IsHeldOf size bytes self.old → IsHeldOf size bytes self.new }
    {
        if from < self.from || from - self.from > self.count as u64 {
            self.from = from;
            self.count = 0;
            return;
        }
        let gone = (from - self.from) as usize;
        slide(self.room.as_mut_slice(), gone, self.count);
        self.from = from;
        self.count = (self.count - gone).min(most);
    }

    // Makes the room at least so many bytes large. Refused for want of memory, it leaves what is held.
    fn make_room(&mut self, least: usize) -> Result<(), PartsFault>
        ensures from { self.new.from ≡ self.old.from }
        ensures count { self.new.count ≡ self.old.count }
        ensures held { (size : ℕ) (bytes : Option (List ℕ)) → IsHeldOf size bytes self.old → IsHeldOf size bytes self.new }
        ensures room { OnOk result (least ≤ vec_len self.new.room) }
        ensures refused { IfErr result (λ fault. fault ≡ PartsFault.NoMemory) }
    {
        if self.room.len() < least {
            self.room.resize(least, 0)?;
        }
        Ok(())
    }

    // Reads the bytes behind those that are held, up to so many.
    fn fill<S: Source>(
        &mut self,
        source: &mut S,
        parts: &[Part],
        count: usize,
    ) -> Result<(), SourceFault>
        requires most { length parts.now ≤ PARTS_MOST }
        requires attached { AreAttached (S.slots source.old) (slots_of parts.now) }
        requires parts { All (IsPart (S.nature source.old)) (slots_of parts.now) }
        requires more { self.old.count ≤ count }
        requires room { count ≤ vec_len self.old.room }
        requires within { self.old.from + count ≤ size_of (slots_of parts.now) }
        requires held { IsHeldOf (size_of (slots_of parts.now)) (joined (S.nature source.old) (slots_of parts.now)) self.old }
        ensures same { S.nature source.new ≡ S.nature source.old }
        ensures slots { S.slots source.new ≡ S.slots source.old }
        ensures from { self.new.from ≡ self.old.from }
        ensures held { IsHeldOf (size_of (slots_of parts.now)) (joined (S.nature source.old) (slots_of parts.now)) self.new }
        ensures filled { OnOk result (self.new.count ≡ count) }
        ensures cause { CountsFault (S.faults source.old) (S.faults source.new) result }
    {
        let room = self.room.as_mut_slice();
        read_behind(source, parts, self.from, room, self.count, count)?;
        self.count = count;
        Ok(())
    }
}

// Moves the bytes from place `gone` up to `count` to the front.
fn slide(room: &mut [u8], gone: usize, count: usize)
    requires ordered { gone ≤ count }
    requires within { count ≤ length room.old }
    ensures length { length room.new ≡ length room.old }
    ensures moved { take (count - gone) room.new ≡ drop gone (take count room.old) }
{
    room.copy_within(gone..count, 0);
}

// Reads the bytes of the joined parts behind the `held` ones that the room has from the place `from` on, up to
// `count`.
fn read_behind<S: Source>(
    source: &mut S,
    parts: &[Part],
    from: u64,
    room: &mut [u8],
    held: usize,
    count: usize,
) -> Result<(), SourceFault>
    requires most { length parts.now ≤ PARTS_MOST }
    requires attached { AreAttached (S.slots source.old) (slots_of parts.now) }
    requires parts { All (IsPart (S.nature source.old)) (slots_of parts.now) }
    requires more { held ≤ count }
    requires room { count ≤ length room.old }
    requires within { from + count ≤ size_of (slots_of parts.now) }
    requires held { IfSome (joined (S.nature source.old) (slots_of parts.now)) (λ image. take held room.old ≡ take held (drop from image)) }
    ensures same { S.nature source.new ≡ S.nature source.old }
    ensures slots { S.slots source.new ≡ S.slots source.old }
    ensures length { length room.new ≡ length room.old }
    ensures kept { take held room.new ≡ take held room.old }
    ensures filled { OnOk result (IfSome (joined (S.nature source.old) (slots_of parts.now)) (λ image. take count room.new ≡ take count (drop from image))) }
    ensures cause { CountsFault (S.faults source.old) (S.faults source.new) result }
{
    let (front, _) = room.split_at_mut(count);
    let (_, missing) = front.split_at_mut(held);
    read_parts(source, parts, from + held as u64, missing)
}
