// What a scan has found, as its text says it.
ghost use Rattle.std.specs.Prelude.{◌≡◌, ◌≤◌, length, filter, map, IfOk};
ghost use Rattle.std.specs.Int.{div_ceil};
ghost use Rattle.feature_file.specs.FeatureFile.{stands_in};
ghost use Rattle.report_publish.specs.declared.publish.TheConstants.{FEATURE_FILES};
ghost use Rattle.triage_run.specs.Text.{Counts, file_lines};

use byte_kit::NoMemory;
use feature_file::stands_in;
use forensic_path::Classed;
use report_publish::FEATURE_FILES;
use std::alloc::Global;
use std::marker::Model;

/// A feature file, and how many lines of features it has.
#[derive(Clone, Copy)]
pub struct FileLines {
    pub file: u32,
    pub lines: u64,
}

/// The pages of an image, its features, and the lines of each feature file, in order.
#[derive(Drop)]
pub struct Summary {
    pages: u64,
    features: u64,
    files: Vec<FileLines>,
}

impl Model for Summary {
    ghost use Rattle.triage_run.specs.Text.{Counts};

    ghost Value = { Counts };

    ghost view = { λ s. record { pages = s.pages; features = s.features; files = s.files.items } };
}

impl Summary {
    /// Counts the features of an image of so many bytes, whose pages have so many. Its one refusal is want of
    /// memory.
    pub fn count(
        alloc: Global,
        page: u64,
        bytes: u64,
        items: &[Classed],
    ) -> Result<Summary, NoMemory>
        requires { 1 ≤ page }
        ensures pages { IfOk result (λ found. found.pages ≡ div_ceil bytes page) }
        ensures features { IfOk result (λ found. found.features ≡ length items.now) }
        ensures files { IfOk result (λ found. found.files ≡ map (file_lines items.now) FEATURE_FILES) }
    {
        let mut files = Vec::new(alloc);
        for file in FEATURE_FILES {
            let lines = lines_in(file, items);
            files.push(FileLines { file, lines })?;
        }
        Ok(Summary {
            pages: bytes.div_ceil(page),
            features: items.len() as u64,
            files,
        })
    }

    /// How many pages the image has.
    pub fn pages(&self) -> u64
        ensures { result ≡ self.now.pages }
    {
        self.pages
    }

    /// How many features were found.
    pub fn features(&self) -> u64
        ensures { result ≡ self.now.features }
    {
        self.features
    }

    /// The feature files, each with its lines.
    pub fn files(&self) -> &[FileLines]
        ensures { result.now ≡ self.now.files }
    {
        self.files.as_slice()
    }
}

// How many of the features have their line in the file.
fn lines_in(file: u32, items: &[Classed]) -> u64
    ensures { result ≡ length (filter (stands_in file) items.now) }
{
    items.iter().filter(|item| stands_in(file, item)).count() as u64
}
