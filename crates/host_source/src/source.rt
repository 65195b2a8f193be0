// What the scan asks of whatever holds an image.
ghost use Rattle.std.specs.Prelude.{◌≡◌, ℕ, ◌<◌, length, None, IsTrue, IfOk, OnOk, OnErr, Option};
ghost use Rattle.byte_kit.specs.Counts.{CountsFault};
ghost use Rattle.host_source.specs.Source.{SourceNature, Slot, Attaches, IsWithin, Reads};

use thiserror::Error;

/// The source could not give what was asked of it, and has counted a fault.
#[derive(Clone, Copy, Debug, PartialEq, Eq, Error)]
#[error("source fault")]
pub struct SourceFault;

/// Bytes under names. A name is attached to one of the slots 0 to 63, and then read by its slot.
pub trait Source {
    /// What each name holds, where the source tells it, and the names that may be asked for.
    ghost nature: { Self → SourceNature };

    /// What is attached to each slot.
    ghost slots: { Self → ℕ → Option Slot };

    /// How many calls have failed. The count stands still at 2^64 - 1.
    ghost faults: { Self → ℕ };

    /// Attaches a name to a free slot, and gives its size in bytes.
    fn attach(&mut self, slot: u32, name: &str) -> Result<u64, SourceFault>
        requires below { slot < 64 }
        requires free { slots self.old slot ≡ None }
        requires asked { IsTrue ((nature self.old).may_attach name.now) }
        ensures same { nature self.new ≡ nature self.old }
        ensures ok { IfOk result (Attaches (nature self.old) (slots self.old) (slots self.new) slot name.now) }
        ensures err { OnErr result (slots self.new ≡ slots self.old) }
        ensures cause { CountsFault (faults self.old) (faults self.new) result };

    /// Fills `into` with the slot's bytes from place `at` on. After a fault `into` holds any bytes.
    fn read_at(&mut self, slot: u32, at: u64, into: &mut [u8]) -> Result<(), SourceFault>
        requires within { IsWithin (slots self.old) slot at (length into.old) }
        ensures same { nature self.new ≡ nature self.old }
        ensures slots { slots self.new ≡ slots self.old }
        ensures ok { OnOk result (Reads (nature self.old) (slots self.old) slot at into.new) }
        ensures cause { CountsFault (faults self.old) (faults self.new) result };
}
