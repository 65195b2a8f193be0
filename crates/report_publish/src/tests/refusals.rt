// Calls that fail.
use super::feature_files::{ALERTS, URLS};
use super::histograms::{FOUND_ROWS, URL_ROWS};
use super::{OLD, features, file_is, published};
use crate::PublishFault;
use forensic_path::Classed;
use host_disk::{DiskFault, MemDisk};
use std::alloc::Global;
use std::test::Fail;

// Files that have a text where the call that fails has a number from the first on and below the second. The
// mount is call 0, and 17 feature files are cut by the calls from 1 on, written from 18 on, and synced from 35
// on. Then each of six histograms is cut, written and synced by three calls.
const STANDING: &[(u64, u64, u32, &str)] = &[
    (1, 70, 40, "other"),
    (52, 70, 1, URLS),
    (52, 70, 9, ALERTS),
    (1, 53, 21, OLD),
    (55, 70, 21, URL_ROWS),
    (1, 68, 26, OLD),
    (69, 70, 26, FOUND_ROWS),
];

// The files have their texts after this call has failed.
fn stands(disk: &MemDisk, call: u64) -> bool {
    STANDING.iter().all(|(from, to, file, text)| call < *from
        || *to <= call
        || file_is(disk, *file, text))
}

// The report by all scanners ends at this call, which fails.
fn ends_at(alloc: Global, items: &[Classed], call: u64) -> Result<bool, DiskFault> {
    let (disk, result) = published(alloc, items, 127, &[call])?;
    Ok(
        result == Err(PublishFault::Disk)
            && disk.calls().len() as u64 == call.saturating_add(1)
            && stands(&disk, call),
    )
}

#[test]
fn a_failing_call_ends_the_report(rt: HostRuntime) -> Result<(), Fail> {
    let items = features(rt.alloc())?;
    for call in 1..70 {
        assert!(rt; ends_at(rt.alloc(), items.as_slice(), call)?, "at {call}");
    }
    Ok(())
}
