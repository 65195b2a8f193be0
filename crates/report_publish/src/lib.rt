//! The report of a list of classed features: feature files, each with its header and the lines of the
//! features that stand in it, and histograms, each with its header and its rows.
//!
//! The list is gone over once for all feature files: a line is made once, and gathered in a piece of each
//! file that it stands in. A piece is written where the next line would make it longer than 32 KiB. Then the
//! histograms are written one after another: the list is gone over once for each, and one histogram's counts
//! and rows are held at a time.
//!
//! The promise: after `Ok` each file of the report has exactly its text for the list
//! (`specs/Publish.antt`), and whatever [`publish_items`] answers, every other file is as it was. Each file
//! is synced at the end too, which no contract of a disk can say. The files of the report are those of the
//! table of report files that are written for the scanners, but for the spool.
#![tactic(auto)]

mod fault;
mod features;
mod histogram;
mod lines;
mod open_file;
mod publish;

pub use fault::PublishFault;
pub use publish::{FEATURE_FILES, HISTOGRAMS, publish_items};

#[cfg(test)]
mod tests;
