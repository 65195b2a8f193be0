//! What a scan finds, and where: a feature stands at a forensic path, an offset in the image and then
//! a decoder and an offset for each buffer that was decoded on the way, as `100-BASE64-0`.
//!
//! These are the plain records that contracts and definitions speak of. `specs/PathText.antt` says
//! which text a path has, and `specs/Grammar.antt` which paths are lawful.
//!
//! The promise: `path_text` writes the text of a path (`path_into` at the end of a line that is built),
//! and `path_read` gives each lawful path of at most seven steps back from its text. Of any other text it
//! tells whether it is that of a longer path, and of how many steps. A `Scanner` is what finds, named by
//! its word and by its bit (`specs/Scanners.antt`).
#![tactic(auto)]

mod fault;
mod feature;
mod path;
mod read;
mod scanner;
mod write;

pub use fault::PathFault;
pub use feature::{Class, Classed, Feature, Kind};
pub use path::{Decoder, Path, STEPS_MOST, Step, Steps};
pub use read::path_read;
pub use scanner::Scanner;
pub use write::{path_into, path_text};

#[cfg(test)]
mod tests;
