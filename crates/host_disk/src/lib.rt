//! Where a scan writes: the trait `Disk`, whose meaning is files as a read gives them and a count of
//! faults, and two disks in memory: `SureDisk`, which never fails, and `MemDisk`, whose calls can be
//! made to fail by their number and are kept for a test to read.
//!
//! The promise: each call changes its own file alone, a call that works leaves the count of faults, and
//! one that failed raises it by one.
#![tactic(auto)]

mod content;
mod disk;
mod medium;
mod mem_disk;
mod sure_disk;

pub use disk::{Disk, DiskFault};
pub use mem_disk::{DiskCall, MemDisk};
pub use sure_disk::SureDisk;

#[cfg(test)]
mod tests;
