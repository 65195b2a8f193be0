//! All scanners and decoders together: what a scan finds in a buffer, and in the buffers within it. Each
//! place is judged by its Look alone, and the features of one place stand in the order of their kinds.
//!
//! A `ScanPlan` says what a scan looks for and how deep, `Tools` are the matchers and the lists that it
//! works with, and `scan_owned` makes the features of the places that a buffer owns, each with its forensic
//! path and its context.
//!
//! The promise: `scan_owned` answers exactly the features that `specs/Here.antt` gives those places, in
//! their order. `specs/Shapes.antt` says which shapes a place has by the bytes around it, and
//! `specs/Decoders.antt` which texts are decoded there. `specs/Lawful.antt` says what a plan may ask for.
//!
//! What a Base64 text, a run of hexadecimal digits or a run of UTF-16 pairs says is a buffer of its own,
//! which is scanned like the first one, a level deeper, up to `DEPTH_MOST` levels. A view, where each byte is
//! XORed with the plan's mask, is judged a level deeper too, and is taken once on the way from the image.
//! The features of a place itself come first, then those in what is decoded there, and those of its view
//! last. Two places whose Looks are equal have the same features, but for their first place
//! (`same_looks_same_features`).
//!
//! Each search lists the marks or the starts of texts of a run of places, in order of place
//! (`specs/Marks.antt`, `specs/Decoders.antt`). As events (`specs/Events.antt`) they are merged by place
//! (`specs/Merged.antt`), so nothing is sorted. Each event makes its feature, or is decoded and scanned before
//! the next one; `specs/Fits.antt` says what this rests on.
#![tactic(auto)]

mod event;
mod feature;
mod laws;
mod level;
mod merge;
mod nest;
mod plan;
mod scan;
mod search;
mod tools;

pub use laws::same_looks_same_features;
pub use plan::{DEPTH_MOST, ScanPlan};
pub use scan::scan_owned;
pub use tools::Tools;

#[cfg(test)]
mod border_tests;
#[cfg(test)]
mod context_tests;
#[cfg(test)]
mod level_tests;
#[cfg(test)]
mod nesting_tests;
#[cfg(test)]
mod tests;
