// A source that keeps to itself what it holds.
use crate::{Source, SourceFault};

/// A source whose calls are those of another one, and that tells no content, as the files of a machine
/// do not. What a scan promises over it holds whatever it reads.
#[derive(Drop)]
pub struct Untold<S>(pub S);

impl<S: Source> Source for Untold<S> {
    ghost use Rattle.host_source.specs.Source.{untold};

    ghost nature = { λ source. untold (S.nature source.0) };

    ghost slots = { λ source. S.slots source.0 };

    ghost faults = { λ source. S.faults source.0 };

    fn attach(&mut self, slot: u32, name: &str) -> Result<u64, SourceFault> {
        self.0.attach(slot, name)
    }

    fn read_at(&mut self, slot: u32, at: u64, into: &mut [u8]) -> Result<(), SourceFault> {
        self.0.read_at(slot, at, into)
    }
}
