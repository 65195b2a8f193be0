ghost use Rattle.std.specs.Prelude.{◌≡◌, ◌^◌, ◌<◌, length, true, false};
ghost use Rattle.host_disk.specs.MemDisk.{mem_mounted};

use crate::{Disk, DiskCall, DiskFault, MemDisk, SureDisk};
use std::alloc::Global;
use std::process::Abort;
use std::test::Fail;

// A call of a disk on its file 3.
#[derive(Clone, Copy)]
enum Step {
    Mount,
    Length(u64),
    Read(u64, [u8; 2]),
    Write(u64, &'static str),
    Cut(u64),
    Sync,
}

// Makes the call, whose answer is the number or the two bytes that are named. What it asks for is tested first.
fn make(rt: &impl Abort, disk: &mut MemDisk, step: Step) -> Result<(), DiskFault> {
    assert!(rt; disk.is_mounted() != matches!(step, Step::Mount));
    let held = disk.file(3).len() as u64;
    match step {
        Step::Mount => disk.mount("place"),
        Step::Length(bytes) => {
            assert_eq!(rt; disk.length(3)?, bytes);
            Ok(())
        }
        Step::Read(at, bytes) => {
            assert!(rt; held >= 2 && at <= held - 2);
            let mut into = [b'x'; 2];
            disk.read_at(3, at, &mut into)?;
            assert_eq!(rt; into, bytes);
            Ok(())
        }
        Step::Write(at, text) => {
            assert!(rt; at <= held && held < 100 && text.len() < 100);
            disk.write_at(3, at, text.as_bytes())
        }
        Step::Cut(to) => {
            assert!(rt; to <= held);
            disk.cut(3, to)
        }
        Step::Sync => disk.sync(3),
    }
}

// A disk that isn't mounted, with bytes in the files 3 and 4.
fn disk(alloc: Global, third: &[u8]) -> Result<MemDisk, Fail>
    requires { length third.now < 2 ^ 62 }
{
    let mut disk = MemDisk::make(alloc);
    set(&mut disk, 4, b"other")?;
    set(&mut disk, 3, third)?;
    Ok(disk)
}

// Sets the bytes of a file of a disk that isn't mounted.
fn set(disk: &mut MemDisk, file: u32, bytes: &[u8]) -> Result<(), Fail>
    requires file { file < 64 }
    requires bound { length bytes.now < 2 ^ 62 }
    requires fresh { mem_mounted disk.old ≡ false }
    ensures { mem_mounted disk.new ≡ false }
{
    disk.set_file(file, bytes)?;
    Ok(())
}

#[test]
fn writes_and_cuts_change_their_file_alone(rt: HostRuntime) -> Result<(), Fail> {
    let mut disk = disk(rt.alloc(), b"abcdef")?;
    let rows = [
        (Step::Mount, "abcdef"),
        (Step::Write(2, "CD"), "abCDef"),
        (Step::Write(5, "FGH"), "abCDeFGH"),
        (Step::Write(8, "ij"), "abCDeFGHij"),
        (Step::Cut(4), "abCD"),
        (Step::Cut(4), "abCD"),
        (Step::Read(1, *b"bC"), "abCD"),
        (Step::Length(4), "abCD"),
        (Step::Sync, "abCD"),
    ];
    for (step, held) in rows {
        make(&rt, &mut disk, step)?;
        assert_eq!(rt; disk.file(3), held.as_bytes());
        assert_eq!(rt; disk.file(4), b"other".as_slice());
        assert!(rt; disk.file(63).is_empty());
    }
    assert_eq!(rt; disk.writes(), 5);
    Ok(())
}

// The calls of the test below.
const MADE: [DiskCall; 11] = [
    DiskCall::Mount,
    DiskCall::Mount,
    DiskCall::Write {
        file: 3,
        at: 0,
        bytes: 1,
    },
    DiskCall::Write {
        file: 3,
        at: 1,
        bytes: 1,
    },
    DiskCall::Cut { file: 3, to: 1 },
    DiskCall::Read {
        file: 3,
        at: 1,
        bytes: 2,
    },
    DiskCall::Read {
        file: 3,
        at: 1,
        bytes: 2,
    },
    DiskCall::Sync { file: 3 },
    DiskCall::Sync { file: 3 },
    DiskCall::Length { file: 3 },
    DiskCall::Cut { file: 3, to: 2 },
];

#[test]
fn a_named_call_fails_once_and_changes_nothing(rt: HostRuntime) -> Result<(), Fail> {
    let mut disk = disk(rt.alloc(), b"abc")?;
    disk.fail_calls(&[0, 2])?;
    disk.fail_calls(&[4, 6, 7, 9])?;
    let rows = [
        (Step::Mount, false, "abc"),
        (Step::Mount, true, "abc"),
        (Step::Write(0, "A"), false, "abc"),
        (Step::Write(1, "B"), true, "aBc"),
        (Step::Cut(1), false, "aBc"),
        (Step::Read(1, *b"Bc"), true, "aBc"),
        (Step::Read(1, *b"Bc"), false, "aBc"),
        (Step::Sync, false, "aBc"),
        (Step::Sync, true, "aBc"),
        (Step::Length(3), false, "aBc"),
        (Step::Cut(2), true, "aB"),
    ];
    for (step, works, held) in rows {
        let want = if works {
            Ok(())
        } else {
            Err(DiskFault::Failed)
        };
        assert_eq!(rt; make(&rt, &mut disk, step), want);
        assert_eq!(rt; disk.file(3), held.as_bytes());
    }
    assert_eq!(rt; disk.writes(), 4);
    assert_eq!(rt; disk.calls(), MADE.as_slice());
    Ok(())
}

// Puts bytes into file 9 of a disk twice, by any of its calls, and gives its length.
fn replace_twice<D: Disk + Send>(disk: &mut D) -> Result<u64, DiskFault>
    requires { D.mounted disk.old ≡ true }
{
    disk.write_at(9, 0, b"a longer text")?;
    disk.cut(9, 0)?;
    disk.write_at(9, 0, b"text")?;
    disk.sync(9)?;
    disk.length(9)
}

#[test]
fn a_file_is_replaced_on_either_disk(rt: HostRuntime) -> Result<(), Fail> {
    let mut disk = MemDisk::make(rt.alloc());
    disk.mount("place")?;
    assert_eq!(rt; replace_twice(&mut disk)?, 4);
    assert_eq!(rt; disk.file(9), b"text".as_slice());

    let mut disk = SureDisk::make(rt.alloc());
    disk.mount("place")?;
    assert_eq!(rt; replace_twice(&mut disk)?, 4);
    assert_eq!(rt; disk.file(9), b"text".as_slice());
    assert!(rt; disk.file(8).is_empty());
    Ok(())
}
