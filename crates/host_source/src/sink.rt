// What the scan asks of whatever takes its printed text.
ghost use Rattle.std.specs.Prelude.{◌≡◌, ℕ, List, Option, OnOk, IfErr};
ghost use Rattle.host_source.specs.Sink.{Takes, LeavesOf, IsSinkCall};

use thiserror::Error;

/// Why a sink did not take what was put.
#[derive(Clone, Copy, Debug, PartialEq, Eq, Error)]
pub enum SinkFault {
    /// The sink failed, and has counted a fault.
    #[error("sink fault")]
    Failed,
    /// The allocator had no room.
    #[error("no memory")]
    NoMemory,
}

/// Bytes that are put one behind the other, and never read back.
pub trait Sink {
    /// The bytes put so far, where the sink tells them.
    ghost taken: { Self → Option (List ℕ) };

    /// How many puts have failed. The count stands still at 2^64 - 1.
    ghost faults: { Self → ℕ };

    /// Puts the bytes behind those of earlier puts. After `Failed` a front of them stands there, and after
    /// `NoMemory` none.
    fn put(&mut self, bytes: &[u8]) -> Result<(), SinkFault>
        ensures ok { OnOk result (Takes (taken self.old) (taken self.new) bytes.now) }
        ensures err { IfErr result (LeavesOf (taken self.old) (taken self.new) bytes.now) }
        ensures cause { IsSinkCall (faults self.old) (faults self.new) result };
}
