//! Parts of an image, read as one image: the bytes of the first part, behind them those of the second, and
//! so on. The parts are names of a `Source`, such as the files that `split` makes of a disk's image.
//!
//! `Parts::attach` attaches the names, `size` and `part_size` say how many bytes there are, `read_at` fills a
//! slice from any place on, across the borders of parts, and `load` makes a range of the image the `window`,
//! whose bytes are lent. Windows that follow one another may share bytes, and no byte that the last one had
//! is read again.
//!
//! The promise: what is read or lent is the image's own bytes (`joined` of `specs/Image.antt`), and a fault
//! comes only where the source counted one (`specs/Faults.antt`).
#![tactic(auto)]

mod attach;
mod fault;
mod held;
mod parts;
mod read;

pub use fault::PartsFault;
pub use parts::{PARTS_MOST, Parts};

#[cfg(test)]
mod tests;
