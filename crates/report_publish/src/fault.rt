// Why a report was not written.
use byte_kit::NoMemory;
use host_disk::DiskFault;
use thiserror::Error;

/// Why a report was not written.
#[derive(Clone, Copy, Debug, PartialEq, Eq, Error)]
pub enum PublishFault {
    /// The disk failed, and has counted a fault.
    #[error("disk fault")]
    Disk,
    /// The allocator had no room, or a file would have had 2^62 bytes or more.
    #[error("no memory")]
    NoMemory,
}

impl From<DiskFault> for PublishFault {
    ghost use Rattle.std.specs.Prelude.{◌≡◌};
    ghost use Rattle.report_publish.specs.Faults.{fault_of};

    ghost from_gives = { λ of_disk fault. fault ≡ fault_of of_disk };

    fn from(fault: DiskFault) -> Self {
        match fault {
            DiskFault::Failed => PublishFault::Disk,
            DiskFault::NoMemory => PublishFault::NoMemory,
        }
    }
}

impl From<NoMemory> for PublishFault {
    ghost use Rattle.std.specs.Prelude.{◌≡◌};
    ghost use Rattle.report_publish.specs.declared.fault.PublishFault.TheVariants.{NoMemory};

    ghost from_gives = { λ _ fault. fault ≡ NoMemory };

    fn from(_: NoMemory) -> Self {
        PublishFault::NoMemory
    }
}
