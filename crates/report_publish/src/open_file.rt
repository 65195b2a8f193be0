// A report file while it is written.
ghost use Rattle.std.specs.Prelude.{◌≡◌, ◌≢◌, ℕ, ◌<◌, ◌++◌, [], IsTrue, IsSome, IfOk, OnOk, length, true};
ghost use Rattle.feature_file.specs.Files.{file_name_of};
ghost use Rattle.feature_file.specs.FeatureFile.{header_of, line_text};
ghost use Rattle.report_publish.specs.Faults.{HasPublishCause};
ghost use Rattle.report_publish.specs.OpenFile.{IsPlaced, gathered, GainsLine};

use crate::fault::PublishFault;
use byte_kit::NoMemory;
use feature_file::{header_into, stands_in};
use forensic_path::Classed;
use host_disk::Disk;
use std::alloc::Global;

// The most bytes of a piece, unless a single line is longer. A piece's room at most doubles as it grows, so
// those of all feature files together take about 1 MiB, and a write of 32 KiB costs little more a byte than a
// larger one.
const PIECE_MOST: usize = 1 << 15;

// The least length in bytes that a disk's file can't have.
const FILE_END: u64 = 1 << 62;

// A file of the report: its first `written` bytes stand on the disk, and the next ones in the piece.
#[derive(Drop)]
pub(crate) struct OpenFile {
    pub(crate) number: u32,
    pub(crate) written: u64,
    pub(crate) piece: Vec<u8>,
}

impl OpenFile {
    // A file with nothing on the disk, and its header in the piece.
    pub(crate) fn make(alloc: Global, number: u32) -> Result<OpenFile, NoMemory>
        requires { IsSome (file_name_of number) }
        ensures number { IfOk result (λ f. f.number ≡ number) }
        ensures written { IfOk result (λ f. f.written ≡ 0) }
        ensures piece { IfOk result (λ f. f.piece.items ≡ header_of number) }
    {
        let mut piece = Vec::new(alloc);
        header_into(number, &mut piece)?;
        Ok(OpenFile {
            number,
            written: 0,
            piece,
        })
    }

    // Gathers the line of a feature, where the feature stands in this file.
    pub(crate) fn add<D: Disk>(
        &mut self,
        disk: &mut D,
        item: &Classed,
        line: &[u8],
    ) -> Result<(), PublishFault>
        requires open { D.mounted disk.old ≡ true }
        requires placed { IsPlaced (D.nature disk.old).tells (D.files disk.old) self.old }
        requires line { line.now ≡ line_text item.now }
        ensures same { D.nature disk.new ≡ D.nature disk.old }
        ensures stays { D.mounted disk.new ≡ true }
        ensures number { self.new.number ≡ self.old.number }
        ensures placed { OnOk result (IsPlaced (D.nature disk.old).tells (D.files disk.new) self.new) }
        ensures lines { IsTrue (D.nature disk.old).tells → OnOk result (GainsLine (D.files disk.old) (D.files disk.new) item.now self.old self.new) }
        ensures others { IsTrue (D.nature disk.old).tells → (file : ℕ) → file ≢ self.old.number → D.files disk.new file ≡ D.files disk.old file }
        ensures cause { HasPublishCause (D.faults disk.old) (D.faults disk.new) result }
    {
        if stands_in(self.number, item) {
            self.append(disk, line)
        } else {
            Ok(())
        }
    }

    // Appends bytes to the piece. Where they would make it too long, it is written first.
    pub(crate) fn append<D: Disk>(&mut self, disk: &mut D, bytes: &[u8]) -> Result<(), PublishFault>
        requires open { D.mounted disk.old ≡ true }
        requires placed { IsPlaced (D.nature disk.old).tells (D.files disk.old) self.old }
        ensures same { D.nature disk.new ≡ D.nature disk.old }
        ensures stays { D.mounted disk.new ≡ true }
        ensures number { self.new.number ≡ self.old.number }
        ensures placed { OnOk result (IsPlaced (D.nature disk.old).tells (D.files disk.new) self.new) }
        ensures gathers { IsTrue (D.nature disk.old).tells → OnOk result (gathered (D.files disk.new) self.new ≡ gathered (D.files disk.old) self.old ++ bytes.now) }
        ensures others { IsTrue (D.nature disk.old).tells → (file : ℕ) → file ≢ self.old.number → D.files disk.new file ≡ D.files disk.old file }
        ensures cause { HasPublishCause (D.faults disk.old) (D.faults disk.new) result }
    {
        if bytes.len() > PIECE_MOST.saturating_sub(self.piece.len()) {
            self.flush(disk)?;
        }
        let Ok(()) = self.piece.extend_from_slice(bytes) else {
            return Err(PublishFault::NoMemory);
        };
        Ok(())
    }

    // Writes the piece behind what stands on the disk, and empties it. A piece by which the file would
    // have 2^62 bytes or more is not written, and wants memory.
    pub(crate) fn flush<D: Disk>(&mut self, disk: &mut D) -> Result<(), PublishFault>
        requires open { D.mounted disk.old ≡ true }
        requires placed { IsPlaced (D.nature disk.old).tells (D.files disk.old) self.old }
        ensures same { D.nature disk.new ≡ D.nature disk.old }
        ensures stays { D.mounted disk.new ≡ true }
        ensures number { self.new.number ≡ self.old.number }
        ensures emptied { OnOk result (self.new.piece.items ≡ []) }
        ensures placed { OnOk result (IsPlaced (D.nature disk.old).tells (D.files disk.new) self.new) }
        ensures gathers { IsTrue (D.nature disk.old).tells → OnOk result (gathered (D.files disk.new) self.new ≡ gathered (D.files disk.old) self.old) }
        ensures others { IsTrue (D.nature disk.old).tells → (file : ℕ) → file ≢ self.old.number → D.files disk.new file ≡ D.files disk.old file }
        ensures cause { HasPublishCause (D.faults disk.old) (D.faults disk.new) result }
    {
        let count = self.piece.len() as u64;
        if count >= FILE_END - self.written {
            return Err(PublishFault::NoMemory);
        }
        disk.write_at(self.number, self.written, self.piece.as_slice())?;
        self.written += count;
        self.piece.clear();
        Ok(())
    }
}
