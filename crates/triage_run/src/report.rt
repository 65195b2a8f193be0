// The report of what is found: its files, and what it counts.
ghost use Rattle.std.specs.Prelude.{◌≡◌, ◌≤◌, true, IfOk, OnOk, IsTrue};
ghost use Rattle.report_publish.specs.Faults.{HasPublishCause};
ghost use Rattle.report_publish.specs.Publish.{files_for, AreWritten};
ghost use Rattle.triage_run.specs.Image.{counts_in};
ghost use Rattle.triage_run.specs.Kept.{KeepsOthers};
ghost use Rattle.triage_run.specs.Words.{IsSearch};

use crate::summary::Summary;
use crate::words::Search;
use forensic_path::Classed;
use host_disk::Disk;
use report_publish::{PublishFault, publish_items};
use std::alloc::Global;

/// Writes the report of these features to a mounted disk, and gives what was found in an image of so many bytes.
pub fn write_report<D: Disk>(
    alloc: Global,
    search: &Search,
    bytes: u64,
    items: &[Classed],
    disk: &mut D,
) -> Result<Summary, PublishFault>
    requires search { IsSearch search.now }
    requires open { D.mounted disk.old ≡ true }
    ensures same { D.nature disk.new ≡ D.nature disk.old }
    ensures stays { D.mounted disk.new ≡ true }
    ensures written { OnOk result (IsTrue (D.nature disk.old).tells → AreWritten search.now.plan.scanners items.now (D.files disk.new)) }
    ensures found { IfOk result (λ found. found ≡ counts_in search.now.page bytes items.now) }
    ensures others { KeepsOthers (files_for search.now.plan.scanners) (D.nature disk.old) (D.files disk.old) (D.files disk.new) }
    ensures cause { HasPublishCause (D.faults disk.old) (D.faults disk.new) result }
{
    publish_items(alloc, disk, items, search.plan.scanners)?;
    let found = Summary::count(alloc, search.page, bytes, items)?;
    Ok(found)
}
