// The lines of all features, gathered in the files that they stand in.
ghost use Rattle.std.specs.Prelude.{◌≡◌, ℕ, [], IsTrue, OnOk, nat_eq, true, false};
ghost use Rattle.std.specs.List.{All, IsDistinct};
ghost use Rattle.byte_kit.specs.Classes.{is_one_of};
ghost use Rattle.feature_file.specs.FeatureFile.{line_text};
ghost use Rattle.report_publish.specs.Faults.{HasPublishCause};
ghost use Rattle.report_publish.specs.OpenFile.{numbers, IsPlaced, HasLines, EachGainsLine};

use crate::fault::PublishFault;
use crate::open_file::OpenFile;
use byte_kit::NoMemory;
use feature_file::line_into;
use forensic_path::Classed;
use host_disk::Disk;
use std::alloc::Global;

// Gathers the lines of all features in the files that they stand in, in the list's order.
pub(crate) fn add_lines<D: Disk>(
    alloc: Global,
    disk: &mut D,
    open_files: &mut [OpenFile],
    items: &[Classed],
) -> Result<(), PublishFault>
    requires open { D.mounted disk.old ≡ true }
    requires apart { IsDistinct nat_eq (numbers open_files.old) }
    requires placed { All (IsPlaced (D.nature disk.old).tells (D.files disk.old)) open_files.old }
    ensures same { D.nature disk.new ≡ D.nature disk.old }
    ensures stays { D.mounted disk.new ≡ true }
    ensures numbers { numbers open_files.new ≡ numbers open_files.old }
    ensures placed { OnOk result (All (IsPlaced (D.nature disk.old).tells (D.files disk.new)) open_files.new) }
    ensures lines { IsTrue (D.nature disk.old).tells → OnOk result (All (HasLines (D.files disk.old) []) open_files.old → All (HasLines (D.files disk.new) items.now) open_files.new) }
    ensures others { IsTrue (D.nature disk.old).tells → (file : ℕ) → is_one_of (numbers open_files.old) file ≡ false → D.files disk.new file ≡ D.files disk.old file }
    ensures cause { HasPublishCause (D.faults disk.old) (D.faults disk.new) result }
{
    let mut line = Vec::new(alloc);
    for item in items {
        make_line(item, &mut line)?;
        add_line(disk, open_files, item, line.as_slice())?;
    }
    Ok(())
}

// Makes the line of a feature in the place of what is there.
fn make_line(item: &Classed, line: &mut Vec<u8>) -> Result<(), NoMemory>
    ensures { OnOk result (line.new.items ≡ line_text item.now) }
{
    line.clear();
    let feature = &item.item;
    line_into(
        &feature.path,
        feature.feature.as_slice(),
        feature.context.as_slice(),
        line,
    )?;
    line.extend_from_slice(b"\n")?;
    Ok(())
}

// Gathers the line of one feature in each file that it stands in.
fn add_line<D: Disk>(
    disk: &mut D,
    open_files: &mut [OpenFile],
    item: &Classed,
    line: &[u8],
) -> Result<(), PublishFault>
    requires open { D.mounted disk.old ≡ true }
    requires apart { IsDistinct nat_eq (numbers open_files.old) }
    requires placed { All (IsPlaced (D.nature disk.old).tells (D.files disk.old)) open_files.old }
    requires line { line.now ≡ line_text item.now }
    ensures same { D.nature disk.new ≡ D.nature disk.old }
    ensures stays { D.mounted disk.new ≡ true }
    ensures numbers { numbers open_files.new ≡ numbers open_files.old }
    ensures placed { OnOk result (All (IsPlaced (D.nature disk.old).tells (D.files disk.new)) open_files.new) }
    ensures lines { IsTrue (D.nature disk.old).tells → OnOk result (EachGainsLine (D.files disk.old) (D.files disk.new) item.now open_files.old open_files.new) }
    ensures others { IsTrue (D.nature disk.old).tells → (file : ℕ) → is_one_of (numbers open_files.old) file ≡ false → D.files disk.new file ≡ D.files disk.old file }
    ensures cause { HasPublishCause (D.faults disk.old) (D.faults disk.new) result }
{
    for file in open_files.iter_mut() {
        file.add(disk, item, line)?;
    }
    Ok(())
}
