// A sink in memory, for tests: it tells what was put, and fails where it is told to.
ghost use Rattle.std.specs.Prelude.{◌≡◌, [], ◌∷◌, Some, IfErr, OnOk, OnErr};
ghost use Rattle.byte_kit.specs.Calls.{no_calls, with_failing};
ghost use Rattle.host_source.specs.Sink.{Takes, LeavesOf, IsSinkCall};

use crate::{Sink, SinkFault};
use byte_kit::{Calls, NoMemory};
use std::alloc::Global;

/// Bytes in memory. The puts are counted from 0 on, and those that `fail_put` names fail: such a put counts
/// a fault, and the first half of its bytes is put, as far as there is room. All counts stand still at
/// 2^64 - 1.
#[derive(Drop)]
pub struct MemSink {
    bytes: Vec<u8>,
    puts: Calls<usize>,
}

impl MemSink {
    ghost use Rattle.host_source.specs.MemSink.{mem_taken, mem_puts};

    /// A sink to which nothing was put. It takes no memory.
    pub fn make(alloc: Global) -> MemSink
        ensures empty { mem_taken result ≡ Some [] }
        ensures puts { mem_puts result ≡ no_calls }
    {
        MemSink {
            bytes: Vec::new(alloc),
            puts: Calls::make(alloc),
        }
    }

    /// Names one more put that is to fail. The first one is number 0. Refused for want of memory, it names
    /// none.
    pub fn fail_put(&mut self, put: u64) -> Result<(), NoMemory>
        ensures named { OnOk result (mem_puts self.new ≡ with_failing (mem_puts self.old) (put ∷ [])) }
        ensures same { OnErr result (mem_puts self.new ≡ mem_puts self.old) }
        ensures taken { mem_taken self.new ≡ mem_taken self.old }
    {
        self.puts.fail(&[put])
    }

    /// The bytes put so far.
    pub fn bytes(&self) -> &[u8]
        ensures { Some result.now ≡ mem_taken self.now }
    {
        self.bytes.as_slice()
    }

    /// How many bytes each put was given, in the order of the puts and with those that failed, for a test
    /// to read. No contract speaks of this list: a put for which there was no room is not in it.
    pub fn puts(&self) -> &[usize] {
        self.puts.list()
    }
}

impl Sink for MemSink {
    ghost use Rattle.host_source.specs.MemSink.{mem_taken, mem_put_faults, IsPut};

    ghost taken = { mem_taken };

    ghost faults = { mem_put_faults };

    fn put(&mut self, bytes: &[u8]) -> Result<(), SinkFault>
        ensures ok { OnOk result (Takes (mem_taken self.old) (mem_taken self.new) bytes.now) }
        ensures err { IfErr result (LeavesOf (mem_taken self.old) (mem_taken self.new) bytes.now) }
        ensures put { IsPut self.old self.new result }
        ensures cause { IsSinkCall (mem_put_faults self.old) (mem_put_faults self.new) result }
    {
        if self.puts.begin(bytes.len()) {
            let (front, _) = bytes.split_at(bytes.len() / 2);
            let _ = self.bytes.extend_from_slice(front);
            return Err(SinkFault::Failed);
        }
        match self.bytes.extend_from_slice(bytes) {
            Ok(()) => Ok(()),
            Err(_) => Err(SinkFault::NoMemory),
        }
    }
}
