// The bytes under a name.
ghost use Rattle.std.specs.Prelude.{◌≡◌, ◌+◌, ◌≤◌, length, take, drop, replicate};

use byte_kit::Bytes;
use std::marker::Model;

// Bytes, or one byte so many times, of which only their count is kept.
#[derive(Drop)]
pub enum Stored {
    Bytes(Bytes),
    Filled { size: u64, fill: u8 },
}

// The bytes under a name, however they are kept.
#[derive(Drop)]
pub struct Content {
    stored: Stored,
}

impl Model for Content {
    ghost use Rattle.std.specs.Prelude.{ℕ, List};
    ghost use Rattle.host_source.specs.Content.{bytes_of};

    ghost Value = { List ℕ };

    ghost view = { λ content. bytes_of content.stored };
}

impl Content {
    // One byte so many times. It takes no memory.
    pub fn filled(size: u64, fill: u8) -> Content
        ensures { result ≡ replicate size fill }
    {
        Content {
            stored: Stored::Filled { size, fill },
        }
    }

    // How many bytes there are.
    pub fn size(&self) -> u64
        ensures { result ≡ length self.now }
    {
        match &self.stored {
            Stored::Bytes(bytes) => bytes.as_slice().len() as u64,
            Stored::Filled { size, .. } => *size,
        }
    }

    // Fills `into` with the bytes from place `at` on.
    pub fn read_at(&self, at: u64, into: &mut [u8])
        requires { at + length into.old ≤ length self.now }
        ensures { into.new ≡ take (length into.new) (drop at self.now) }
    {
        match &self.stored {
            Stored::Bytes(bytes) => copy_from(bytes.as_slice(), at, into),
            Stored::Filled { fill, .. } => into.fill(*fill),
        }
    }
}

impl From<Bytes> for Content {
    ghost from_gives = { λ bytes content. content ≡ bytes };

    fn from(bytes: Bytes) -> Self {
        Content {
            stored: Stored::Bytes(bytes),
        }
    }
}

// Fills `into` with the bytes from place `at` on.
pub fn copy_from(bytes: &[u8], at: u64, into: &mut [u8])
    requires { at + length into.old ≤ length bytes.now }
    ensures { into.new ≡ take (length into.new) (drop at bytes.now) }
{
    let (_, rest) = bytes.split_at(at as usize);
    let (front, _) = rest.split_at(into.len());
    into.copy_from_slice(front);
}
