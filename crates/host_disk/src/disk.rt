// What the scan asks of the place that it writes to.
ghost use Rattle.std.specs.Prelude.{◌≡◌, ℕ, ◌+◌, ◌^◌, ◌<◌, ◌≤◌, length, take, drop, true, false, Bool, IsTrue, IfOk, OnOk, OnErr};
ghost use Rattle.byte_kit.specs.Places.{put};
ghost use Rattle.host_disk.specs.Files.{Files, written, OneTorn, OnePartlyCut};
ghost use Rattle.host_disk.specs.Disk.{DiskNature, IsDiskCall};

use byte_kit::NoMemory;
use thiserror::Error;

/// Why a disk did not do what was asked of it.
#[derive(Clone, Copy, Debug, PartialEq, Eq, Error)]
pub enum DiskFault {
    /// The disk failed, and has counted a fault.
    #[error("disk fault")]
    Failed,
    /// The allocator had no room.
    #[error("no memory")]
    NoMemory,
}

impl From<NoMemory> for DiskFault {
    ghost use Rattle.std.specs.Prelude.{◌≡◌};
    ghost use Rattle.host_disk.specs.declared.disk.DiskFault.TheVariants.{NoMemory};

    ghost from_gives = { λ _ fault. fault ≡ NoMemory };

    fn from(_: NoMemory) -> Self {
        DiskFault::NoMemory
    }
}

/// Files 0 to 63 in a place that is mounted by a name. A file that isn't there has length 0, and each
/// length stays below 2^62 bytes. What a clause says of a file's bytes is said of a disk that tells
/// its files.
pub trait Disk {
    /// Whether the disk tells its files, whether its calls after `mount` take memory, and the names
    /// that it may be asked for.
    ghost nature: { Self → DiskNature };

    /// The disk was mounted.
    ghost mounted: { Self → Bool };

    /// The files as a read gives them, where the disk tells them.
    ghost files: { Self → Files };

    /// How many calls have failed. The count stands still at 2^64 - 1.
    ghost faults: { Self → ℕ };

    /// Mounts the place of that name. It may want memory on every disk.
    fn mount(&mut self, name: &str) -> Result<(), DiskFault>
        requires fresh { mounted self.old ≡ false }
        requires asked { IsTrue ((nature self.old).may_mount name.now) }
        ensures same { nature self.new ≡ nature self.old }
        ensures mounts { OnOk result (mounted self.new ≡ true) }
        ensures unmounted { OnErr result (mounted self.new ≡ false) }
        ensures files { files self.new ≡ files self.old }
        ensures cause { IsDiskCall (faults self.old) (faults self.new) true result };

    /// The file's length in bytes.
    fn length(&mut self, file: u32) -> Result<u64, DiskFault>
        requires open { mounted self.old ≡ true }
        requires file { file < 64 }
        ensures same { nature self.new ≡ nature self.old }
        ensures stays { mounted self.new ≡ true }
        ensures files { files self.new ≡ files self.old }
        ensures bound { IfOk result (λ bytes. bytes < 2 ^ 62) }
        ensures told { IsTrue (nature self.old).tells → IfOk result (λ bytes. bytes ≡ length (files self.old file)) }
        ensures cause { IsDiskCall (faults self.old) (faults self.new) (nature self.old).takes_memory result };

    /// Fills `into` with the file's bytes from place `at` on. After a fault `into` holds any bytes.
    fn read_at(&mut self, file: u32, at: u64, into: &mut [u8]) -> Result<(), DiskFault>
        requires open { mounted self.old ≡ true }
        requires file { file < 64 }
        requires within { IsTrue (nature self.old).tells → at + length into.old ≤ length (files self.old file) }
        requires bound { at + length into.old < 2 ^ 62 }
        ensures same { nature self.new ≡ nature self.old }
        ensures stays { mounted self.new ≡ true }
        ensures files { files self.new ≡ files self.old }
        ensures told { IsTrue (nature self.old).tells → OnOk result (into.new ≡ take (length into.old) (drop at (files self.old file))) }
        ensures cause { IsDiskCall (faults self.old) (faults self.new) (nature self.old).takes_memory result };

    /// Writes over what stands in the file from place `at` on, and past its end.
    fn write_at(&mut self, file: u32, at: u64, bytes: &[u8]) -> Result<(), DiskFault>
        requires open { mounted self.old ≡ true }
        requires file { file < 64 }
        requires within { IsTrue (nature self.old).tells → at ≤ length (files self.old file) }
        requires bound { at + length bytes.now < 2 ^ 62 }
        ensures same { nature self.new ≡ nature self.old }
        ensures stays { mounted self.new ≡ true }
        ensures told { IsTrue (nature self.old).tells → OnOk result (files self.new ≡ put (files self.old) file (written at bytes.now (files self.old file))) }
        ensures torn { IsTrue (nature self.old).tells → OnErr result (OneTorn file at (length bytes.now) (files self.old) (files self.new)) }
        ensures cause { IsDiskCall (faults self.old) (faults self.new) (nature self.old).takes_memory result };

    /// Cuts the file to a length of at most its own.
    fn cut(&mut self, file: u32, to: u64) -> Result<(), DiskFault>
        requires open { mounted self.old ≡ true }
        requires file { file < 64 }
        requires within { IsTrue (nature self.old).tells → to ≤ length (files self.old file) }
        requires bound { to < 2 ^ 62 }
        ensures same { nature self.new ≡ nature self.old }
        ensures stays { mounted self.new ≡ true }
        ensures told { IsTrue (nature self.old).tells → OnOk result (files self.new ≡ put (files self.old) file (take to (files self.old file))) }
        ensures torn { IsTrue (nature self.old).tells → OnErr result (OnePartlyCut file to (files self.old) (files self.new)) }
        ensures cause { IsDiskCall (faults self.old) (faults self.new) (nature self.old).takes_memory result };

    /// Makes sure of the file: after `Ok` no crash changes what is read of it now.
    fn sync(&mut self, file: u32) -> Result<(), DiskFault>
        requires open { mounted self.old ≡ true }
        requires file { file < 64 }
        ensures same { nature self.new ≡ nature self.old }
        ensures stays { mounted self.new ≡ true }
        ensures files { files self.new ≡ files self.old }
        ensures cause { IsDiskCall (faults self.old) (faults self.new) (nature self.old).takes_memory result };
}
