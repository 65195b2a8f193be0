// A histogram of a report.
ghost use Rattle.std.specs.Prelude.{◌≡◌, ◌≢◌, ◌++◌, ℕ, Some, IsTrue, IfOk, OnOk, true};
ghost use Rattle.host_disk.specs.Files.{Files};
ghost use Rattle.count_histogram.specs.Counts.{AreCounts};
ghost use Rattle.count_histogram.specs.Histogram.{items_of, rows_of, histogram_text};
ghost use Rattle.count_histogram.specs.Rules.{file_of};
ghost use Rattle.report_publish.specs.Faults.{HasPublishCause};
ghost use Rattle.report_publish.specs.OpenFile.{IsPlaced, gathered};
ghost use Rattle.report_publish.specs.RowLines.{row_text, rows_text};

use crate::fault::PublishFault;
use crate::open_file::OpenFile;
use byte_kit::NoMemory;
use count_histogram::{Counts, Row, Rule, item_into, row_line_into};
use feature_file::stands_in;
use forensic_path::Classed;
use host_disk::Disk;
use std::alloc::Global;

// Writes the histogram of the features by the rule: its file is cut, gets its text, and is synced.
pub(crate) fn write_histogram<D: Disk>(
    alloc: Global,
    disk: &mut D,
    items: &[Classed],
    rule: Rule,
) -> Result<(), PublishFault>
    requires open { D.mounted disk.old ≡ true }
    ensures same { D.nature disk.new ≡ D.nature disk.old }
    ensures stays { D.mounted disk.new ≡ true }
    ensures written { IsTrue (D.nature disk.old).tells → OnOk result (D.files disk.new (file_of rule) ≡ histogram_text (file_of rule) items.now) }
    ensures others { IsTrue (D.nature disk.old).tells → (file : ℕ) → file ≢ file_of rule → D.files disk.new file ≡ D.files disk.old file }
    ensures cause { HasPublishCause (D.faults disk.old) (D.faults disk.new) result }
{
    let rows = rows_by(alloc, items, rule)?;
    let mut file = OpenFile::make(alloc, rule.file())?;
    disk.cut(file.number, 0)?;
    add_rows(alloc, disk, &mut file, rows.as_slice())?;
    file.flush(disk)?;
    disk.sync(file.number)?;
    Ok(())
}

// The rows of the features by the rule, in order. The counts are gone when the rows are there.
fn rows_by(alloc: Global, items: &[Classed], rule: Rule) -> Result<Vec<Row>, NoMemory>
    ensures { IfOk result (λ rows. rows.items ≡ rows_of (items_of (Some rule) items.now)) }
{
    counts_by(alloc, items, rule)?.rows()
}

// The counts of the features of the rule's kind that aren't stopped, by their items.
fn counts_by(alloc: Global, items: &[Classed], rule: Rule) -> Result<Counts, NoMemory>
    ensures { IfOk result (λ counts. AreCounts counts (items_of (Some rule) items.now)) }
{
    let mut counts = Counts::make(alloc);
    let mut counted = Vec::new(alloc);
    for item in items {
        if stands_in(rule.source(), item) {
            counted.clear();
            item_into(rule, item.item.feature.as_slice(), &mut counted)?;
            counts.add(counted.as_slice())?;
        }
    }
    Ok(counts)
}

// Appends the lines of the rows to the file.
fn add_rows<D: Disk>(
    alloc: Global,
    disk: &mut D,
    file: &mut OpenFile,
    rows: &[Row],
) -> Result<(), PublishFault>
    requires open { D.mounted disk.old ≡ true }
    requires placed { IsPlaced (D.nature disk.old).tells (D.files disk.old) file.old }
    ensures same { D.nature disk.new ≡ D.nature disk.old }
    ensures stays { D.mounted disk.new ≡ true }
    ensures number { file.new.number ≡ file.old.number }
    ensures placed { OnOk result (IsPlaced (D.nature disk.old).tells (D.files disk.new) file.new) }
    ensures gathers { IsTrue (D.nature disk.old).tells → OnOk result (gathered (D.files disk.new) file.new ≡ gathered (D.files disk.old) file.old ++ rows_text rows.now) }
    ensures others { IsTrue (D.nature disk.old).tells → (other : ℕ) → other ≢ file.old.number → D.files disk.new other ≡ D.files disk.old other }
    ensures cause { HasPublishCause (D.faults disk.old) (D.faults disk.new) result }
{
    let mut line = Vec::new(alloc);
    for row in rows {
        make_row_line(row, &mut line)?;
        file.append(disk, line.as_slice())?;
    }
    Ok(())
}

// Makes the line of a row in the place of what is there.
fn make_row_line(row: &Row, line: &mut Vec<u8>) -> Result<(), NoMemory>
    ensures { OnOk result (line.new.items ≡ row_text row.now) }
{
    line.clear();
    row_line_into(row, line)?;
    line.extend_from_slice(b"\n")?;
    Ok(())
}
