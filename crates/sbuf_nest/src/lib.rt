//! Buffers, what is found in them, and the way into buffers that are nested. A place of a buffer is
//! judged by its `Look`, the bytes just ahead of it and those from it on: two places whose Looks are
//! equal hold the same features, wherever they stand. An `Sbuf` lends the Looks of its places, and knows
//! which of them it owns.
//!
//! A `Search` says what a place has, and which places have to be judged for it: a `Mark` of a feature,
//! or the `Start` of an encoded text. `find_marks` appends what the owned places have to a `Found` or to
//! `Starts`. Where texts are runs of a class of bytes, `ByteClass` names the class, `begins_run` and
//! `run_len` say where a run begins and how long it is, and `past_run` and `next_row` pass over the places
//! at which none begins, sixteen at a time. A `Trail` keeps the turns from the image into the buffer that is searched, and makes
//! the paths of its places.
//!
//! The promise: a Look, and a part, is the buffer's own bytes, and none is a copy. A search appends
//! exactly what the owned places have, in order, whatever it passes over. `specs/Around.antt` says what
//! the Look of a place is, `specs/Marks.antt` what a search appends, `specs/Edges.antt` and
//! `specs/Runs.antt` where runs begin, and `specs/Turns.antt` how the places of nested buffers make a
//! path.
#![tactic(auto)]

mod found;
mod look;
mod mark;
mod runs;
mod sbuf;
mod search;
mod trail;

pub use found::{Found, Items, Starts};
pub use look::{LOOK_AFTER, LOOK_BEFORE, Look};
pub use mark::{Extent, Mark, Start};
pub use runs::{ByteClass, begins_run, next_row, past_run, run_len};
pub use sbuf::Sbuf;
pub use search::{Places, Search, find_marks};
pub use trail::{Trail, Turn};

#[cfg(test)]
mod nesting_tests;
#[cfg(test)]
mod tests;
