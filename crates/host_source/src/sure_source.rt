// A source of one name, whose calls succeed.
ghost use Rattle.std.specs.Prelude.{◌^◌, ◌<◌, length};
ghost use Rattle.host_source.specs.Source.{HoldsOnly, IsDetached};

use crate::content::copy_from;
use crate::{Source, SourceFault};

/// Lent bytes under the one name that may be asked for. Its count of faults is 0 for ever.
#[derive(Drop)]
pub struct SureSource<'a> {
    name: &'a str,
    bytes: &'a [u8],
    attached: [bool; 64],
    ghost small: { length bytes.now < 2 ^ 57 },
}

impl<'a> SureSource<'a> {
    ghost use Rattle.host_source.specs.SureSource.{sure_nature, sure_slots};

    /// The source of these bytes under this name.
    pub fn of(name: &'a str, bytes: &'a [u8]) -> SureSource<'a>
        requires { length bytes.now < 2 ^ 57 }
        ensures nature { HoldsOnly (sure_nature result) name.now bytes.now }
        ensures detached { IsDetached (sure_slots result) }
    {
        SureSource {
            name,
            bytes,
            attached: [false; 64],
        }
    }
}

impl<'a> Source for SureSource<'a> {
    ghost use Rattle.host_source.specs.SureSource.{sure_nature, sure_slots};

    ghost nature = { sure_nature };

    ghost slots = { sure_slots };

    ghost faults = { λ _. 0 };

    fn attach(&mut self, slot: u32, _name: &str) -> Result<u64, SourceFault> {
        self.attached[slot as usize] = true;
        Ok(self.bytes.len() as u64)
    }

    fn read_at(&mut self, _slot: u32, at: u64, into: &mut [u8]) -> Result<(), SourceFault> {
        copy_from(self.bytes, at, into);
        Ok(())
    }
}
