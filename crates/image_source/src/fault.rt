// Why parts were not attached, or bytes of them not lent.
use byte_kit::NoMemory;
use host_source::SourceFault;
use std::alloc::{AllocError, AllocFailed};
use thiserror::Error;

/// Why parts were not attached, or bytes of them not lent.
#[derive(Clone, Copy, Debug, PartialEq, Eq, Error)]
pub enum PartsFault {
    /// The source failed, and has counted a fault.
    #[error("source fault")]
    Read,
    /// The allocator had no room.
    #[error("no memory")]
    NoMemory,
}

impl From<SourceFault> for PartsFault {
    ghost use Rattle.std.specs.Prelude.{◌≡◌};
    ghost use Rattle.image_source.specs.declared.fault.PartsFault.{PartsFault};

    ghost from_gives = { λ _ fault. fault ≡ PartsFault.Read };

    fn from(_: SourceFault) -> Self {
        PartsFault::Read
    }
}

impl From<NoMemory> for PartsFault {
    ghost use Rattle.std.specs.Prelude.{◌≡◌};
    ghost use Rattle.image_source.specs.declared.fault.PartsFault.{PartsFault};

    ghost from_gives = { λ _ fault. fault ≡ PartsFault.NoMemory };

    fn from(_: NoMemory) -> Self {
        PartsFault::NoMemory
    }
}

impl<T: Drop> From<AllocFailed<T>> for PartsFault {
    ghost use Rattle.std.specs.Prelude.{◌≡◌};
    ghost use Rattle.image_source.specs.declared.fault.PartsFault.{PartsFault};

    ghost from_gives = { λ _ fault. fault ≡ PartsFault.NoMemory };

    fn from(_: AllocFailed<T>) -> Self {
        PartsFault::NoMemory
    }
}

impl From<AllocError> for PartsFault {
    ghost use Rattle.std.specs.Prelude.{◌≡◌};
    ghost use Rattle.image_source.specs.declared.fault.PartsFault.{PartsFault};

    ghost from_gives = { λ _ fault. fault ≡ PartsFault.NoMemory };

    fn from(_: AllocError) -> Self {
        PartsFault::NoMemory
    }
}
