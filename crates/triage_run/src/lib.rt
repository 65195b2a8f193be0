//! All that the program does: from the words of the command line, the sources that hold an image, the source
//! that holds the lists, the disk that takes the report and the sink that takes the printed text, to the files
//! of the report, the text and a status.
//!
//! The promise stands on [`triage`], in `src/call.rt`. A call that answers `Done` leaves the report
//! files byte for byte as `specs/Case.antt` defines them over the whole image, and has put the text of
//! `specs/Text.antt`; each refusal comes only where its cause in `specs/Call.antt` is; and a lawful call
//! over objects that don't fail is done, or wants memory.
//!
//! A call goes from `call` by `words` (what is asked for), `lists` (the stop list and the alert list) and `patterns`
//! to `scan` (attach the parts, count the pages, mount), `find` (page after page, what is found and its classes) and
//! `report` (the files) with `summary` (what was found, in numbers), and ends in `text` (the lines, and the sink).
//! `generate` makes an image, and scans it by the same call, with a source and a disk of its own.
#![tactic(auto)]

mod call;
mod find;
mod generate;
mod lists;
mod patterns;
mod report;
mod scan;
mod status;
mod summary;
mod text;
mod whole;
mod words;

pub use call::{Outcome, triage};
pub use lists::LIST_MOST;
pub use scan::PAGES_MOST;
pub use scan_settings::Why;
pub use status::{List, ReadPlace, Status, Unbuilt};

#[cfg(test)]
mod tests;
