// What a scan calls, once each.
use super::reports::holds;
use super::{MemOutcome, scan, scan_failing};
use crate::Status;
use byte_kit::NoMemory;
use feature_file::is_written;
use host_disk::{DiskCall, MemDisk};
use host_source::{MemSource, SourceCall};
use report_publish::{FEATURE_FILES, HISTOGRAMS};
use scan_settings::SCANNERS;
use std::alloc::Global;
use std::test::Fail;

// The call ended with this status, after these calls of every source and of the disk, and none of the lists.
pub(super) fn ended<K>(
    outcome: &MemOutcome<K>,
    status: Status,
    read: &[SourceCall],
    written: &[DiskCall],
) -> bool {
    outcome.status == status
        && made(outcome.sources.as_slice(), read)
        && outcome.lists.calls().is_empty()
        && outcome.disk.calls() == written
}

// Every source made just these calls.
fn made(sources: &[MemSource], calls: &[SourceCall]) -> bool {
    for source in sources {
        if source.calls() != calls {
            return false;
        }
    }
    true
}

pub(super) const ATTACH: SourceCall = SourceCall::Attach { slot: 0 };

// The read of the whole of `ftp://a`.
pub(super) const READ: SourceCall = SourceCall::Read {
    slot: 0,
    at: 0,
    bytes: 7,
};

// Adds a cut to nothing of each feature file of a report.
fn push_cuts(calls: &mut Vec<DiskCall>) -> Result<(), NoMemory> {
    for file in FEATURE_FILES {
        if is_written(file, SCANNERS) {
            calls.push(DiskCall::Cut { file, to: 0 })?;
        }
    }
    Ok(())
}

// Adds a write of the whole of each feature file that the disk holds.
fn push_writes(disk: &MemDisk, calls: &mut Vec<DiskCall>) -> Result<(), NoMemory> {
    for file in FEATURE_FILES {
        if is_written(file, SCANNERS) && file < 64 {
            let bytes = disk.file(file).len() as u64;
            calls.push(DiskCall::Write { file, at: 0, bytes })?;
        }
    }
    Ok(())
}

// Adds a sync of each feature file of a report.
fn push_syncs(calls: &mut Vec<DiskCall>) -> Result<(), NoMemory> {
    for file in FEATURE_FILES {
        if is_written(file, SCANNERS) {
            calls.push(DiskCall::Sync { file })?;
        }
    }
    Ok(())
}

// Adds what writes each histogram that the disk holds, one behind another.
fn push_histograms(disk: &MemDisk, calls: &mut Vec<DiskCall>) -> Result<(), NoMemory> {
    for rule in HISTOGRAMS {
        let file = rule.file();
        if is_written(file, SCANNERS) && file < 64 {
            let bytes = disk.file(file).len() as u64;
            calls.push(DiskCall::Cut { file, to: 0 })?;
            calls.push(DiskCall::Write { file, at: 0, bytes })?;
            calls.push(DiskCall::Sync { file })?;
        }
    }
    Ok(())
}

// The calls of a disk to which a scan has written short files: all feature files are cut, then
// written, then synced, and behind them each histogram by itself.
fn calls_of_a_scan(alloc: Global, disk: &MemDisk) -> Result<Vec<DiskCall>, NoMemory> {
    let mut calls = Vec::new(alloc);
    calls.push(DiskCall::Mount)?;
    push_cuts(&mut calls)?;
    push_writes(disk, &mut calls)?;
    push_syncs(&mut calls)?;
    push_histograms(disk, &mut calls)?;
    Ok(calls)
}

// The calls of the disk, where the scan ended with this status, after these calls of the source and those
// that write a report; or else none.
fn calls_of_the_disk(
    alloc: Global,
    outcome: &MemOutcome,
    status: Status,
    read: &[SourceCall],
) -> Result<Vec<DiskCall>, NoMemory> {
    let mut calls = calls_of_a_scan(alloc, &outcome.disk)?;
    if !ended(outcome, status, read, calls.as_slice()) {
        calls.clear();
    }
    Ok(calls)
}

// A scan whose disk fails at this call ends there: the disk was asked for these and for nothing else.
fn ends_at(alloc: Global, at: u64, made: &[DiskCall]) -> Result<bool, NoMemory> {
    let failed = scan(alloc, b"ftp://a", &[], &[at])?;
    Ok(
        failed.status == Status::DiskFault
            && failed.out.bytes() == b"disk fault\n".as_slice()
            && failed.disk.calls() == made,
    )
}

// There are calls, and a scan ends at whichever of them fails.
fn each_ends_it(alloc: Global, calls: &[DiskCall]) -> Result<bool, NoMemory> {
    for at in 0..calls.len() {
        if !ends_at(alloc, at as u64, calls.split_at(at + 1).0)? {
            return Ok(false);
        }
    }
    Ok(!calls.is_empty())
}

// A scan of `ftp://a` makes each call once, though the third call of the source were to fail.
fn calls_once(alloc: Global) -> Result<bool, NoMemory> {
    let outcome = scan(alloc, b"ftp://a", &[2], &[])?;
    let calls = calls_of_the_disk(alloc, &outcome, Status::Done, &[ATTACH, READ])?;
    each_ends_it(alloc, calls.as_slice())
}

#[test]
fn a_scan_makes_each_call_once(rt: HostRuntime) -> Result<(), Fail> {
    assert!(rt; calls_once(rt.alloc())?);
    Ok(())
}

// A scan of no bytes reads none, and writes its report.
fn reads_nothing(alloc: Global) -> Result<bool, NoMemory> {
    let outcome = scan(alloc, b"", &[], &[])?;
    let calls = calls_of_the_disk(alloc, &outcome, Status::Done, &[ATTACH])?;
    Ok(!calls.is_empty())
}

#[test]
fn an_empty_image_is_not_read(rt: HostRuntime) -> Result<(), Fail> {
    assert!(rt; reads_nothing(rt.alloc())?);
    Ok(())
}

// An image, its one read, and the lines of its report.
const SEE: &str = "see http://example.com/a b";

const READ_SEE: SourceCall = SourceCall::Read {
    slot: 0,
    at: 0,
    bytes: 26,
};

const SEE_URLS: &str = "4\thttp://example.com/a\tsee http://example.com/a b\n";

const SEE_DOMAINS: &str = "11\texample.com\tsee http://example.com/a b\n";

// Half of the text was put, at once, and the report stands whole.
fn stands(failed: &MemOutcome) -> bool {
    failed.out.bytes() == b"done pages=1 features=2".as_slice()
        && failed.out.puts() == [47].as_slice()
        && holds(&failed.disk, SEE_URLS, SEE_DOMAINS)
}

// A scan whose text can't be put makes each call, and leaves its report.
fn stands_unprinted(alloc: Global) -> Result<bool, NoMemory> {
    let failed = scan_failing(alloc, SEE.as_bytes(), &[], &[], true)?;
    let calls = calls_of_the_disk(alloc, &failed, Status::OutFault, &[ATTACH, READ_SEE])?;
    Ok(!calls.is_empty() && stands(&failed))
}

#[test]
fn a_report_stands_though_its_text_can_not_be_put(rt: HostRuntime) -> Result<(), Fail> {
    assert!(rt; stands_unprinted(rt.alloc())?);
    Ok(())
}
