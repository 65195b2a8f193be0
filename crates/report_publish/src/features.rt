// The feature files of a report, which are written at once.
ghost use Rattle.std.specs.Prelude.{◌≡◌, ◌<◌, ℕ, [], IsTrue, IfOk, OnOk, nat_eq, true, false};
ghost use Rattle.std.specs.List.{All, IsDistinct};
ghost use Rattle.byte_kit.specs.Classes.{is_one_of};
ghost use Rattle.report_publish.specs.Faults.{HasPublishCause};
ghost use Rattle.report_publish.specs.OpenFile.{numbers, IsFresh, IsPlaced, EachKeepsLines, AreFeatureFiles};
ghost use Rattle.report_publish.specs.Publish.{features_for, HaveTexts};

use crate::fault::PublishFault;
use crate::lines::add_lines;
use crate::open_file::OpenFile;
use crate::publish::FEATURE_FILES;
use byte_kit::NoMemory;
use feature_file::is_written;
use forensic_path::Classed;
use host_disk::Disk;
use std::alloc::Global;

// Writes the feature files of the report.
pub(crate) fn write_features<D: Disk>(
    alloc: Global,
    disk: &mut D,
    items: &[Classed],
    scanners: u16,
) -> Result<(), PublishFault>
    requires open { D.mounted disk.old ≡ true }
    ensures same { D.nature disk.new ≡ D.nature disk.old }
    ensures stays { D.mounted disk.new ≡ true }
    ensures written { IsTrue (D.nature disk.old).tells → OnOk result (HaveTexts (features_for scanners) items.now (D.files disk.new)) }
    ensures others { IsTrue (D.nature disk.old).tells → (file : ℕ) → is_one_of (features_for scanners) file ≡ false → D.files disk.new file ≡ D.files disk.old file }
    ensures cause { HasPublishCause (D.faults disk.old) (D.faults disk.new) result }
{
    let mut open_files = open_all(alloc, scanners)?;
    write_all(alloc, disk, open_files.as_mut_slice(), items)
}

// The feature files of the report, each with its header to be written.
fn open_all(alloc: Global, scanners: u16) -> Result<Vec<OpenFile>, NoMemory>
    ensures numbers { IfOk result (λ open_files. numbers open_files.items ≡ features_for scanners) }
    ensures apart { IfOk result (λ open_files. IsDistinct nat_eq (numbers open_files.items)) }
    ensures fresh { IfOk result (λ open_files. All IsFresh open_files.items) }
{
    let mut open_files = Vec::new(alloc);
    for number in FEATURE_FILES {
        if is_written(number, scanners) {
            open_files.push(OpenFile::make(alloc, number)?)?;
        }
    }
    Ok(open_files)
}

// Writes the texts of fresh files: cuts them, gathers the lines, writes what is left, and syncs.
fn write_all<D: Disk>(
    alloc: Global,
    disk: &mut D,
    open_files: &mut [OpenFile],
    items: &[Classed],
) -> Result<(), PublishFault>
    requires open { D.mounted disk.old ≡ true }
    requires apart { IsDistinct nat_eq (numbers open_files.old) }
    requires fresh { All IsFresh open_files.old }
    ensures same { D.nature disk.new ≡ D.nature disk.old }
    ensures stays { D.mounted disk.new ≡ true }
    ensures written { IsTrue (D.nature disk.old).tells → OnOk result (AreFeatureFiles (numbers open_files.old) items.now (D.files disk.new)) }
    ensures others { IsTrue (D.nature disk.old).tells → (file : ℕ) → is_one_of (numbers open_files.old) file ≡ false → D.files disk.new file ≡ D.files disk.old file }
    ensures cause { HasPublishCause (D.faults disk.old) (D.faults disk.new) result }
{
    cut_all(disk, open_files)?;
    add_lines(alloc, disk, open_files, items)?;
    flush_all(disk, open_files)?;
    sync_all(disk, open_files)
}

// Cuts all files to nothing.
fn cut_all<D: Disk>(disk: &mut D, open_files: &[OpenFile]) -> Result<(), PublishFault>
    requires open { D.mounted disk.old ≡ true }
    requires numbers { All (λ f. f.number < 64) open_files.now }
    ensures same { D.nature disk.new ≡ D.nature disk.old }
    ensures stays { D.mounted disk.new ≡ true }
    ensures empty { IsTrue (D.nature disk.old).tells → OnOk result (All (λ f. D.files disk.new f.number ≡ []) open_files.now) }
    ensures others { IsTrue (D.nature disk.old).tells → (file : ℕ) → is_one_of (numbers open_files.now) file ≡ false → D.files disk.new file ≡ D.files disk.old file }
    ensures cause { HasPublishCause (D.faults disk.old) (D.faults disk.new) result }
{
    for file in open_files {
        disk.cut(file.number, 0)?;
    }
    Ok(())
}

// Writes what is left in the pieces.
fn flush_all<D: Disk>(disk: &mut D, open_files: &mut [OpenFile]) -> Result<(), PublishFault>
    requires open { D.mounted disk.old ≡ true }
    requires apart { IsDistinct nat_eq (numbers open_files.old) }
    requires placed { All (IsPlaced (D.nature disk.old).tells (D.files disk.old)) open_files.old }
    ensures same { D.nature disk.new ≡ D.nature disk.old }
    ensures stays { D.mounted disk.new ≡ true }
    ensures numbers { numbers open_files.new ≡ numbers open_files.old }
    ensures small { OnOk result (All (λ f. f.number < 64) open_files.new) }
    ensures emptied { OnOk result (All (λ f. f.piece.items ≡ []) open_files.new) }
    ensures lines { IsTrue (D.nature disk.old).tells → OnOk result (EachKeepsLines (D.files disk.old) (D.files disk.new) open_files.old open_files.new) }
    ensures others { IsTrue (D.nature disk.old).tells → (file : ℕ) → is_one_of (numbers open_files.old) file ≡ false → D.files disk.new file ≡ D.files disk.old file }
    ensures cause { HasPublishCause (D.faults disk.old) (D.faults disk.new) result }
{
    for file in open_files.iter_mut() {
        file.flush(disk)?;
    }
    Ok(())
}

// Makes sure of all files.
fn sync_all<D: Disk>(disk: &mut D, open_files: &[OpenFile]) -> Result<(), PublishFault>
    requires open { D.mounted disk.old ≡ true }
    requires numbers { All (λ f. f.number < 64) open_files.now }
    ensures same { D.nature disk.new ≡ D.nature disk.old }
    ensures stays { D.mounted disk.new ≡ true }
    ensures files { D.files disk.new ≡ D.files disk.old }
    ensures cause { HasPublishCause (D.faults disk.old) (D.faults disk.new) result }
{
    for file in open_files {
        disk.sync(file.number)?;
    }
    Ok(())
}
