// Why a text is not read.
ghost use Rattle.std.specs.Prelude.{◌≡◌};

use byte_kit::NoMemory;
use thiserror::Error;

/// Why a text gives no path.
#[derive(Clone, Copy, Debug, PartialEq, Eq, Error)]
pub enum PathFault {
    /// No path has this text.
    #[error("not a path")]
    Form,
    /// The text is that of a path with so many steps, which are more than the limit.
    #[error("a path of {steps} steps")]
    Deep { steps: u64 },
    /// The allocator had no room.
    #[error("no memory")]
    NoMemory,
}

impl From<NoMemory> for PathFault {
    ghost use Rattle.forensic_path.specs.declared.fault.PathFault.TheVariants.{NoMemory};

    ghost from_gives = { λ _ fault. fault ≡ NoMemory };

    fn from(_: NoMemory) -> Self {
        PathFault::NoMemory
    }
}
