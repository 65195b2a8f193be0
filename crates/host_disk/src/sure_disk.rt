// A disk in memory that never fails.
ghost use Rattle.std.specs.Prelude.{◌≡◌, ℕ, ◌+◌, ◌^◌, ◌<◌, ◌≤◌, List, [], IsTrue, IsOk, IsOkAnd, IfOk, IfErr, OnOk, OnErr, true, false, length, take, drop};
ghost use Rattle.byte_kit.specs.Places.{put};
ghost use Rattle.host_disk.specs.Files.{written, OneTorn};

use crate::medium::Medium;
use crate::{Disk, DiskFault};
use std::alloc::Global;

/// A disk in memory that never fails: its count of faults is always 0, and the one thing that a call
/// may want is memory. It tells its files, and may be mounted by any name.
#[derive(Drop)]
pub struct SureDisk {
    medium: Medium,
    is_mounted: bool,
}

impl SureDisk {
    ghost use Rattle.host_disk.specs.SureDisk.{sure_nature, sure_files, sure_mounted};

    /// A disk that isn't mounted, with all files empty. It takes no memory.
    pub fn make(alloc: Global) -> SureDisk
        ensures fresh { sure_mounted result ≡ false }
        ensures empty { sure_files result ≡ λ file. [] }
        ensures any_name { (name : List ℕ) → IsTrue ((sure_nature result).may_mount name) }
    {
        SureDisk {
            medium: Medium::make(alloc),
            is_mounted: false,
        }
    }

    /// The file's bytes, for a file below 64; none where it isn't there.
    pub fn file(&self, file: u32) -> &[u8]
        requires { file < 64 }
        ensures bytes { result.now ≡ sure_files self.now file }
        ensures bound { length result.now < 2 ^ 62 }
    {
        self.medium.file(file)
    }
}

impl Disk for SureDisk {
    ghost use Rattle.host_disk.specs.SureDisk.{sure_nature, sure_files, sure_mounted};

    ghost nature = { sure_nature };

    ghost mounted = { sure_mounted };

    ghost files = { sure_files };

    ghost faults = { λ _. 0 };

    fn mount(&mut self, _: &str) -> Result<(), DiskFault>
        ensures done { IsOk result }
        ensures mounts { sure_mounted self.new ≡ true }
        ensures files { sure_files self.new ≡ sure_files self.old }
    {
        self.is_mounted = true;
        Ok(())
    }

    fn length(&mut self, file: u32) -> Result<u64, DiskFault>
        requires file { file < 64 }
        ensures same { self.new ≡ self.old }
        ensures bound { IfOk result (λ bytes. bytes < 2 ^ 62) }
        ensures told { IsOkAnd result (λ bytes. bytes ≡ length (sure_files self.old file)) }
    {
        Ok(self.medium.file(file).len() as u64)
    }

    fn read_at(&mut self, file: u32, at: u64, into: &mut [u8]) -> Result<(), DiskFault>
        requires file { file < 64 }
        requires within { at + length into.old ≤ length (sure_files self.old file) }
        ensures done { IsOk result }
        ensures same { self.new ≡ self.old }
        ensures told { into.new ≡ take (length into.old) (drop at (sure_files self.old file)) }
    {
        self.medium.read_at(file, at, into);
        Ok(())
    }

    fn write_at(&mut self, file: u32, at: u64, bytes: &[u8]) -> Result<(), DiskFault>
        requires file { file < 64 }
        requires within { at ≤ length (sure_files self.old file) }
        requires bound { at + length bytes.now < 2 ^ 62 }
        ensures stays { sure_mounted self.new ≡ sure_mounted self.old }
        ensures told { OnOk result (sure_files self.new ≡ put (sure_files self.old) file (written at bytes.now (sure_files self.old file))) }
        ensures memory { IfErr result (λ fault. fault ≡ DiskFault.NoMemory) }
        ensures kept { OnErr result (sure_files self.new ≡ sure_files self.old) }
        ensures torn { OnErr result (OneTorn file at (length bytes.now) (sure_files self.old) (sure_files self.new)) }
    {
        self.medium.write_at(file, at, bytes)?;
        Ok(())
    }

    fn cut(&mut self, file: u32, to: u64) -> Result<(), DiskFault>
        requires file { file < 64 }
        ensures done { IsOk result }
        ensures stays { sure_mounted self.new ≡ sure_mounted self.old }
        ensures told { sure_files self.new ≡ put (sure_files self.old) file (take to (sure_files self.old file)) }
    {
        self.medium.cut(file, to);
        Ok(())
    }

    fn sync(&mut self, _: u32) -> Result<(), DiskFault>
        ensures done { IsOk result }
        ensures same { self.new ≡ self.old }
    {
        Ok(())
    }
}
