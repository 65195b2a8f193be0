// A disk in memory for tests, whose calls can be made to fail.
ghost use Rattle.std.specs.Prelude.{◌≡◌, ◌+◌, ◌^◌, ◌<◌, ◌≤◌, [], IsErr, IfOk, IfErr, OnOk, OnErr, true, false, length, take, drop};
ghost use Rattle.byte_kit.specs.Calls.{no_calls, with_failing};
ghost use Rattle.byte_kit.specs.Counts.{counted};
ghost use Rattle.byte_kit.specs.Places.{put};
ghost use Rattle.host_disk.specs.Files.{written, OneTorn, OnePartlyCut};

use crate::medium::Medium;
use crate::{Disk, DiskFault};
use byte_kit::{Calls, NoMemory};
use std::alloc::Global;

/// A call of the trait `Disk` with its numbers: the file, the place in bytes and the count of bytes, and
/// for a cut the length that it was to leave.
#[derive(Clone, Copy, Debug, PartialEq, Eq)]
pub enum DiskCall {
    Mount,
    Length { file: u32 },
    Read { file: u32, at: u64, bytes: u64 },
    Write { file: u32, at: u64, bytes: u64 },
    Cut { file: u32, to: u64 },
    Sync { file: u32 },
}

/// A disk in memory for tests. It tells its files, and may be mounted by any name. All calls of the
/// trait are counted together from 0 on, and those that `fail_calls` names fail: such a call answers
/// `DiskFault::Failed`, counts a fault and changes nothing else. All counts stand still at 2^64 - 1.
#[derive(Drop)]
pub struct MemDisk {
    medium: Medium,
    is_mounted: bool,
    calls: Calls<DiskCall>,
    writes: u64,
}

impl MemDisk {
    ghost use Rattle.host_disk.specs.MemDisk.{mem_files, mem_mounted, mem_calls, mem_writes, mem_faults, IsCall};
    ghost use Rattle.host_disk.specs.Disk.{IsDiskCall};

    /// A disk that isn't mounted, with all files empty and no call so far. It takes no memory.
    pub fn make(alloc: Global) -> MemDisk
        ensures fresh { mem_mounted result ≡ false }
        ensures empty { mem_files result ≡ λ file. [] }
        ensures calls { mem_calls result ≡ no_calls }
        ensures writes { mem_writes result ≡ 0 }
    {
        MemDisk {
            medium: Medium::make(alloc),
            is_mounted: false,
            calls: Calls::make(alloc),
            writes: 0,
        }
    }

    /// Sets the bytes of a file below 64, on a disk that isn't mounted. It is no call of the trait.
    /// Refused, it leaves all files as they were.
    pub fn set_file(&mut self, file: u32, bytes: &[u8]) -> Result<(), NoMemory>
        requires file { file < 64 }
        requires bound { length bytes.now < 2 ^ 62 }
        requires fresh { mem_mounted self.old ≡ false }
        ensures set { OnOk result (mem_files self.new ≡ put (mem_files self.old) file bytes.now) }
        ensures same { OnErr result (mem_files self.new ≡ mem_files self.old) }
        ensures mounted { mem_mounted self.new ≡ mem_mounted self.old }
        ensures calls { mem_calls self.new ≡ mem_calls self.old }
        ensures writes { mem_writes self.new ≡ mem_writes self.old }
    {
        self.medium.set(file, bytes)
    }

    /// The bytes of a file below 64; none where it isn't there.
    pub fn file(&self, file: u32) -> &[u8]
        requires { file < 64 }
        ensures bytes { result.now ≡ mem_files self.now file }
        ensures bound { length result.now < 2 ^ 62 }
    {
        self.medium.file(file)
    }

    /// Whether the disk was mounted.
    pub fn is_mounted(&self) -> bool
        ensures { result ≡ mem_mounted self.now }
    {
        self.is_mounted
    }

    /// The number of calls of `write_at` and `cut` so far, with those that failed.
    pub fn writes(&self) -> u64
        ensures { result ≡ mem_writes self.now }
    {
        self.writes
    }

    /// The calls of the trait so far, in their order and with those that failed, for a test to read.
    /// No contract speaks of this list: a call for which there was no room is not in it.
    pub fn calls(&self) -> &[DiskCall] {
        self.calls.list()
    }

    /// Adds to the calls that fail. The first call of the trait is number 0. Refused, it leaves the
    /// calls that fail as they were.
    pub fn fail_calls(&mut self, calls: &[u64]) -> Result<(), NoMemory>
        ensures named { OnOk result (mem_calls self.new ≡ with_failing (mem_calls self.old) calls.now) }
        ensures same { OnErr result (mem_calls self.new ≡ mem_calls self.old) }
        ensures files { mem_files self.new ≡ mem_files self.old }
        ensures mounted { mem_mounted self.new ≡ mem_mounted self.old }
        ensures writes { mem_writes self.new ≡ mem_writes self.old }
    {
        self.calls.fail(calls)
    }

    // Counts and keeps a call of the trait, and fails it where it is due.
    fn begin(&mut self, call: DiskCall) -> Result<(), DiskFault>
        ensures call { IsCall self.old self.new result }
        ensures fault { IfErr result (λ fault. fault ≡ DiskFault.Failed) }
        ensures cause { IsDiskCall (mem_faults self.old) (mem_faults self.new) true result }
        ensures rest { self.new ≡ record self.old { calls = self.new.calls } }
    {
        if self.calls.begin(call) {
            return Err(DiskFault::Failed);
        }
        Ok(())
    }
}

impl Disk for MemDisk {
    ghost use Rattle.host_disk.specs.Disk.{IsDiskCall};
    ghost use Rattle.host_disk.specs.MemDisk.{mem_nature, mem_files, mem_mounted, mem_writes, mem_faults, IsDue, IsCall};

    ghost nature = { mem_nature };

    ghost mounted = { mem_mounted };

    ghost files = { mem_files };

    ghost faults = { mem_faults };

    fn mount(&mut self, _: &str) -> Result<(), DiskFault>
        requires fresh { mem_mounted self.old ≡ false }
        ensures call { IsCall self.old self.new result }
        ensures only_due { IsErr result → IsDue self.old }
        ensures writes { mem_writes self.new ≡ mem_writes self.old }
        ensures mounts { OnOk result (mem_mounted self.new ≡ true) }
        ensures unmounted { OnErr result (mem_mounted self.new ≡ false) }
        ensures files { mem_files self.new ≡ mem_files self.old }
        ensures cause { IsDiskCall (mem_faults self.old) (mem_faults self.new) true result }
    {
        self.begin(DiskCall::Mount)?;
        self.is_mounted = true;
        Ok(())
    }

    fn length(&mut self, file: u32) -> Result<u64, DiskFault>
        requires open { mem_mounted self.old ≡ true }
        requires file { file < 64 }
        ensures call { IsCall self.old self.new result }
        ensures only_due { IsErr result → IsDue self.old }
        ensures writes { mem_writes self.new ≡ mem_writes self.old }
        ensures stays { mem_mounted self.new ≡ true }
        ensures files { mem_files self.new ≡ mem_files self.old }
        ensures bound { IfOk result (λ bytes. bytes < 2 ^ 62) }
        ensures told { IfOk result (λ bytes. bytes ≡ length (mem_files self.old file)) }
        ensures cause { IsDiskCall (mem_faults self.old) (mem_faults self.new) true result }
    {
        self.begin(DiskCall::Length { file })?;
        Ok(self.medium.file(file).len() as u64)
    }

    fn read_at(&mut self, file: u32, at: u64, into: &mut [u8]) -> Result<(), DiskFault>
        requires open { mem_mounted self.old ≡ true }
        requires file { file < 64 }
        requires within { at + length into.old ≤ length (mem_files self.old file) }
        ensures call { IsCall self.old self.new result }
        ensures only_due { IsErr result → IsDue self.old }
        ensures writes { mem_writes self.new ≡ mem_writes self.old }
        ensures stays { mem_mounted self.new ≡ true }
        ensures files { mem_files self.new ≡ mem_files self.old }
        ensures told { OnOk result (into.new ≡ take (length into.old) (drop at (mem_files self.old file))) }
        ensures kept { OnErr result (into.new ≡ into.old) }
        ensures cause { IsDiskCall (mem_faults self.old) (mem_faults self.new) true result }
    {
        self.begin(DiskCall::Read {
            file,
            at,
            bytes: into.len() as u64,
        })?;
        self.medium.read_at(file, at, into);
        Ok(())
    }

    fn write_at(&mut self, file: u32, at: u64, bytes: &[u8]) -> Result<(), DiskFault>
        requires open { mem_mounted self.old ≡ true }
        requires file { file < 64 }
        requires within { at ≤ length (mem_files self.old file) }
        requires bound { at + length bytes.now < 2 ^ 62 }
        ensures call { IsCall self.old self.new result }
        ensures writes { mem_writes self.new ≡ counted (mem_writes self.old) }
        ensures stays { mem_mounted self.new ≡ true }
        ensures told { OnOk result (mem_files self.new ≡ put (mem_files self.old) file (written at bytes.now (mem_files self.old file))) }
        ensures kept { OnErr result (mem_files self.new ≡ mem_files self.old) }
        ensures torn { OnErr result (OneTorn file at (length bytes.now) (mem_files self.old) (mem_files self.new)) }
        ensures cause { IsDiskCall (mem_faults self.old) (mem_faults self.new) true result }
    {
        self.writes = self.writes.saturating_add(1);
        self.begin(DiskCall::Write {
            file,
            at,
            bytes: bytes.len() as u64,
        })?;
        self.medium.write_at(file, at, bytes)?;
        Ok(())
    }

    fn cut(&mut self, file: u32, to: u64) -> Result<(), DiskFault>
        requires open { mem_mounted self.old ≡ true }
        requires file { file < 64 }
        requires within { to ≤ length (mem_files self.old file) }
        ensures call { IsCall self.old self.new result }
        ensures only_due { IsErr result → IsDue self.old }
        ensures writes { mem_writes self.new ≡ counted (mem_writes self.old) }
        ensures stays { mem_mounted self.new ≡ true }
        ensures told { OnOk result (mem_files self.new ≡ put (mem_files self.old) file (take to (mem_files self.old file))) }
        ensures kept { OnErr result (mem_files self.new ≡ mem_files self.old) }
        ensures torn { OnErr result (OnePartlyCut file to (mem_files self.old) (mem_files self.new)) }
        ensures cause { IsDiskCall (mem_faults self.old) (mem_faults self.new) true result }
    {
        self.writes = self.writes.saturating_add(1);
        self.begin(DiskCall::Cut { file, to })?;
        self.medium.cut(file, to);
        Ok(())
    }

    fn sync(&mut self, file: u32) -> Result<(), DiskFault>
        requires open { mem_mounted self.old ≡ true }
        ensures call { IsCall self.old self.new result }
        ensures only_due { IsErr result → IsDue self.old }
        ensures writes { mem_writes self.new ≡ mem_writes self.old }
        ensures stays { mem_mounted self.new ≡ true }
        ensures files { mem_files self.new ≡ mem_files self.old }
        ensures cause { IsDiskCall (mem_faults self.old) (mem_faults self.new) true result }
    {
        self.begin(DiskCall::Sync { file })?;
        Ok(())
    }
}
