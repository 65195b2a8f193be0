// The report of a list of features.
ghost use Rattle.std.specs.Prelude.{◌≡◌, ℕ, IsTrue, OnOk, true, false};
ghost use Rattle.byte_kit.specs.Classes.{is_one_of};
ghost use Rattle.report_publish.specs.Faults.{HasPublishCause};
ghost use Rattle.report_publish.specs.Publish.{histograms_for, is_for, HaveTexts, AreWritten};

use crate::fault::PublishFault;
use crate::features::write_features;
use crate::histogram::write_histogram;
use count_histogram::Rule;
use feature_file::is_written;
use forensic_path::Classed;
use host_disk::Disk;
use std::alloc::Global;

/// The numbers of the feature files, in the order in which they are cut and synced: those of the kinds, the
/// alerts, and those of the kinds' stopped features.
pub const FEATURE_FILES: [u32; 17] = [1, 2, 3, 4, 5, 6, 7, 8, 9, 11, 12, 13, 14, 15, 16, 17, 18];

/// The histograms, in the order in which they are written behind the feature files.
pub const HISTOGRAMS: [Rule; 6] = [
    Rule::Url,
    Rule::Service,
    Rule::Domain,
    Rule::Ip,
    Rule::Ether,
    Rule::Find,
];

/// Writes the report of the features to a mounted disk: each file that is wanted by the scanners
/// (`files_for`) is cut, gets its text for the items (`report_text`: a feature file its header and the lines
/// in the items' order, a histogram its header and its rows), and is synced. `scanners` has a bit for each
/// scanner that is on. Feature files stand before the first histogram is cut, and each histogram before the
/// next.
///
/// `Disk` says that a call of the disk failed, and no call is made behind it; `NoMemory` says that room
/// was wanting, or that a file would have 2^62 bytes or more. After a refusal the files of the report hold
/// any bytes.
pub fn publish_items<D: Disk>(
    alloc: Global,
    disk: &mut D,
    items: &[Classed],
    scanners: u16,
) -> Result<(), PublishFault>
    requires open { D.mounted disk.old ≡ true }
    ensures same { D.nature disk.new ≡ D.nature disk.old }
    ensures stays { D.mounted disk.new ≡ true }
    ensures written { IsTrue (D.nature disk.old).tells → OnOk result (AreWritten scanners items.now (D.files disk.new)) }
    ensures others { IsTrue (D.nature disk.old).tells → (file : ℕ) → is_for scanners file ≡ false → D.files disk.new file ≡ D.files disk.old file }
    ensures cause { HasPublishCause (D.faults disk.old) (D.faults disk.new) result }
{
    write_features(alloc, disk, items, scanners)?;
    write_histograms(alloc, disk, items, scanners)
}

// Writes the histograms of the report, one after another.
fn write_histograms<D: Disk>(
    alloc: Global,
    disk: &mut D,
    items: &[Classed],
    scanners: u16,
) -> Result<(), PublishFault>
    requires open { D.mounted disk.old ≡ true }
    ensures same { D.nature disk.new ≡ D.nature disk.old }
    ensures stays { D.mounted disk.new ≡ true }
    ensures written { IsTrue (D.nature disk.old).tells → OnOk result (HaveTexts (histograms_for scanners) items.now (D.files disk.new)) }
    ensures others { IsTrue (D.nature disk.old).tells → (file : ℕ) → is_one_of (histograms_for scanners) file ≡ false → D.files disk.new file ≡ D.files disk.old file }
    ensures cause { HasPublishCause (D.faults disk.old) (D.faults disk.new) result }
{
    for rule in HISTOGRAMS {
        if is_written(rule.file(), scanners) {
            write_histogram(alloc, disk, items, rule)?;
        }
    }
    Ok(())
}
