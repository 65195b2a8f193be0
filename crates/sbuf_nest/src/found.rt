// The list that a search appends to.
ghost use Rattle.std.specs.Prelude.{◌≡◌, [], ◌∷◌, ◌++◌, OnOk, OnErr};
ghost use Rattle.sbuf_nest.specs.Marks.{marked, started};

use crate::{Extent, Mark, Start};
use byte_kit::NoMemory;
use forensic_path::{Decoder, Kind};
use std::alloc::Global;
use std::marker::Model;

/// A list of what was found, in the order in which it was added.
#[derive(Drop)]
pub struct Items<T: Copy> {
    items: Vec<T>,
}

/// The marks that a scanner found.
pub type Found = Items<Mark>;

/// Where encoded texts begin.
pub type Starts = Items<Start>;

impl<T: Copy> Model for Items<T> {
    ghost use Rattle.std.specs.Prelude.{List};

    ghost Value = { List T };

    ghost view = { λ f. f.items.items };
}

impl<T: Copy> Items<T> {
    /// The empty list. It takes no memory.
    pub fn make(alloc: Global) -> Items<T>
        ensures { result ≡ [] }
    {
        Items {
            items: Vec::new(alloc),
        }
    }

    /// Appends an item. Refused for want of memory, it leaves the list as it was.
    pub fn add(&mut self, item: T) -> Result<(), NoMemory>
        ensures added { OnOk result (self.new ≡ self.old ++ item ∷ []) }
        ensures same { OnErr result (self.new ≡ self.old) }
    {
        self.items.push(item)?;
        Ok(())
    }

    /// The items, lent.
    pub fn items(&self) -> &[T]
        ensures { result.now ≡ self.now }
    {
        self.items.as_slice()
    }

    /// Takes all items out, and keeps their room.
    pub fn clear(&mut self)
        ensures { self.new ≡ [] }
    {
        self.items.clear();
    }
}

impl Items<Mark> {
    /// Appends the mark of what has this extent at place `at`, if anything has. Refused for want of
    /// memory, it leaves the list as it was.
    pub fn add_extent(
        &mut self,
        at: usize,
        kind: Kind,
        which: u16,
        extent: Option<u32>,
    ) -> Result<(), NoMemory>
        ensures added { OnOk result (self.new ≡ self.old ++ marked kind which at extent) }
        ensures same { OnErr result (self.new ≡ self.old) }
    {
        match extent {
            None => Ok(()),
            Some(extent) => self.add(Mark {
                at,
                kind,
                which,
                extent,
            }),
        }
    }

    /// The marks, lent.
    pub fn marks(&self) -> &[Mark]
        ensures { result.now ≡ self.now }
    {
        self.items()
    }
}

impl Items<Start> {
    /// Appends the start of a text of this extent at place `at`, if one begins there. Refused for want of
    /// memory, it leaves the list as it was.
    pub fn add_text(
        &mut self,
        at: usize,
        by: Decoder,
        extent: Option<Extent>,
    ) -> Result<(), NoMemory>
        ensures added { OnOk result (self.new ≡ self.old ++ started by at extent) }
        ensures same { OnErr result (self.new ≡ self.old) }
    {
        match extent {
            None => Ok(()),
            Some(extent) => self.add(Start { at, by, extent }),
        }
    }
}
