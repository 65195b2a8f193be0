// Where a feature stands.
ghost use Rattle.std.specs.Prelude.{◌≡◌, [], ◌∷◌, ◌++◌, OnOk, OnErr};

use byte_kit::NoMemory;
use std::alloc::Global;
use std::marker::Model;

/// How many steps a path that is read may have.
pub const STEPS_MOST: u64 = 7;

/// What turned the bytes of one buffer into those of the next.
#[derive(Clone, Copy, Debug, PartialEq, Eq)]
pub enum Decoder {
    /// Base64 letters (RFC 4648 section 4).
    Base64,
    /// Pairs of hexadecimal digits.
    Hex,
    /// Pairs of a printable byte and a zero byte.
    Utf16,
    /// Each byte XORed with this mask, which is 1 to 255.
    Xor(u8),
}

/// A decoder, and a place in what it gave.
#[derive(Clone, Copy, Debug, PartialEq, Eq)]
pub struct Step {
    pub by: Decoder,
    pub at: u64,
}

/// The steps of a path, the outermost first.
#[derive(Drop)]
pub struct Steps {
    items: Vec<Step>,
}

impl Model for Steps {
    ghost use Rattle.std.specs.Prelude.{List};
    ghost use Rattle.forensic_path.specs.declared.path.Step.{Step};

    ghost Value = { List Step };

    ghost view = { λ s. s.items.items };
}

impl Steps {
    /// No steps.
    pub fn make(alloc: Global) -> Steps
        ensures { result ≡ [] }
    {
        Steps {
            items: Vec::new(alloc),
        }
    }

    /// Appends a step. Refused for want of memory, it leaves the steps as they were.
    pub fn add(&mut self, item: Step) -> Result<(), NoMemory>
        ensures added { OnOk result (self.new ≡ self.old ++ item ∷ []) }
        ensures same { OnErr result (self.new ≡ self.old) }
    {
        self.items.push(item)?;
        Ok(())
    }

    /// The steps, lent.
    pub fn items(&self) -> &[Step]
        ensures { result.now ≡ self.now }
    {
        self.items.as_slice()
    }
}

/// An offset in the image, in bytes, and the steps from there.
#[derive(Drop)]
pub struct Path {
    pub top: u64,
    pub steps: Steps,
}
