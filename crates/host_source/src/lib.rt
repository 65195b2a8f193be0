//! Where an image's bytes come from, and where the printed text goes. The trait `Source` has as its meaning
//! what each name holds and a count of faults, and `Sink` the bytes that were put and such a count. In
//! memory there are `SureSource`, which never fails, and for tests `MemSource` and `MemSink`, whose calls can
//! be made to fail by their number and are kept for a test to read. `Untold` is a source that keeps to itself
//! what it holds.
//!
//! The promise: what is read is what the source tells, what was put is what the sink tells, a call that
//! works leaves the count of faults, and one that failed raises it by one.
#![tactic(auto)]

mod content;
mod entry;
mod mem_sink;
mod mem_source;
mod sink;
mod source;
mod sure_source;
mod untold;

pub use mem_sink::MemSink;
pub use mem_source::{MemSource, SourceCall};
pub use sink::{Sink, SinkFault};
pub use source::{Source, SourceFault};
pub use sure_source::SureSource;
pub use untold::Untold;

#[cfg(test)]
mod tests;
