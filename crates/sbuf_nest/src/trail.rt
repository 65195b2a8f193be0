// The way from the image into nested buffers.
ghost use Rattle.std.specs.Prelude.{◌≡◌, ◌-◌, ◌<◌, [], length, take, IfOk};
ghost use Rattle.sbuf_nest.specs.Turns.{turned, path_at, has_xor, is_xor};

use byte_kit::NoMemory;
use forensic_path::{Decoder, Path, Step, Steps};
use std::alloc::Global;
use std::marker::Model;

/// A turn into a nested buffer: the place in the outer one, and the decoder that was applied there.
#[derive(Clone, Copy, Debug, PartialEq, Eq)]
pub struct Turn {
    pub from: u64,
    pub by: Decoder,
}

/// The turns from the image into the buffer that is searched, up to a limit.
#[derive(Drop)]
pub struct Trail {
    // Room for as many turns as the limit says.
    room: Vec<Turn>,
    // How many of them are taken.
    count: usize,
}

impl Model for Trail {
    ghost use Rattle.std.specs.Prelude.{◌≤◌, length, take};
    ghost use Rattle.sbuf_nest.specs.Turns.{Way};

    ghost Value = { Way };

    ghost view = { λ t. record { limit = length t.room.items; turns = take t.count t.room.items } };

    ghost invariant = { λ t. t.count ≤ length t.room.items };
}

impl Trail {
    /// The trail of the image itself, with room for so many turns. Its one refusal is want of memory.
    pub fn make(alloc: Global, limit: u8) -> Result<Trail, NoMemory>
        ensures limit { IfOk result (λ trail. trail.limit ≡ limit) }
        ensures turns { IfOk result (λ trail. trail.turns ≡ []) }
    {
        let blank = Turn {
            from: 0,
            by: Decoder::Base64,
        };
        let mut room = Vec::new(alloc);
        room.resize(limit as usize, blank)?;
        Ok(Trail { room, count: 0 })
    }

    /// The turns, the first one first.
    pub fn turns(&self) -> &[Turn]
        ensures { result.now ≡ self.now.turns }
    {
        self.room.as_slice().split_at(self.count).0
    }

    /// Appends a turn. It asks for fewer turns than the limit, and takes no memory.
    pub fn push(&mut self, from: u64, by: Decoder)
        requires room { length self.old.turns < self.old.limit }
        ensures limit { self.new.limit ≡ self.old.limit }
        ensures turns { self.new.turns ≡ turned self.old.turns from by }
    {
        self.room[self.count] = Turn { from, by };
        self.count += 1;
    }

    /// Takes the last turn away. It asks for one.
    pub fn pop(&mut self)
        requires some { 0 < length self.old.turns }
        ensures limit { self.new.limit ≡ self.old.limit }
        ensures turns { self.new.turns ≡ take (length self.old.turns - 1) self.old.turns }
    {
        self.count -= 1;
    }

    /// Goes back to the image.
    pub fn clear(&mut self)
        ensures limit { self.new.limit ≡ self.old.limit }
        ensures turns { self.new.turns ≡ [] }
    {
        self.count = 0;
    }

    /// Whether a XOR view was taken on the way.
    pub fn has_xor(&self) -> bool
        ensures { result ≡ has_xor self.now.turns }
    {
        self.turns().iter().any(|turn| is_xor(turn.by))
    }

    /// The path of a place in the buffer that the turns lead to. Its one refusal is want of memory.
    pub fn path_at(&self, alloc: Global, place: u64) -> Result<Path, NoMemory>
        ensures { IfOk result (λ path. path ≡ path_at self.now.turns place) }
    {
        let mut steps = Steps::make(alloc);
        let [first, rest @ ..] = self.turns() else {
            return Ok(Path { top: place, steps });
        };
        let mut by = first.by;
        for turn in rest {
            steps.add(Step { by, at: turn.from })?;
            by = turn.by;
        }
        steps.add(Step { by, at: place })?;
        Ok(Path {
            top: first.from,
            steps,
        })
    }
}

fn is_xor(by: Decoder) -> bool
    ensures { result ≡ is_xor by }
{
    match by {
        Decoder::Xor(_) => true,
        Decoder::Base64 | Decoder::Hex | Decoder::Utf16 => false,
    }
}
