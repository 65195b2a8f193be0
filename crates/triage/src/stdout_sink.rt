// A sink over standard output. It tells nothing, since no contract can name what a terminal or a file holds.
ghost use Rattle.std.specs.Prelude.{◌≡◌, None};

use host_source::{Sink, SinkFault};
use std::io::Print;

/// Standard output, or whatever else prints. What is put is written at once.
#[derive(Drop)]
pub struct StdoutSink<P> {
    printer: P,
    faults: u64,
}

impl<P: Print + Drop> StdoutSink<P> {
    /// A sink to which nothing was put.
    pub fn make(printer: P) -> StdoutSink<P>
        ensures faults { result.faults ≡ 0 }
    {
        StdoutSink { printer, faults: 0 }
    }
}

impl<P: Print + Drop> Sink for StdoutSink<P> {
    ghost taken = { λ s. None };

    ghost faults = { λ s. s.faults };

    fn put(&mut self, bytes: &[u8]) -> Result<(), SinkFault> {
        if self.printer.write_all(bytes).is_err() {
            self.faults = self.faults.saturating_add(1);
            return Err(SinkFault::Failed);
        }
        Ok(())
    }
}
