// The signature of a compressed file at a place.
ghost use Rattle.std.specs.Prelude.{◌≡◌, option_map};
ghost use Rattle.sbuf_nest.specs.Around.{seen};
ghost use Rattle.scan_exec.specs.Exec.{unread_of};
ghost use Rattle.scan_exec.specs.Headers.{noted_as};

use sbuf_nest::Look;

/// A compressed file, which is noted and left unread.
#[derive(Clone, Copy, Debug, PartialEq, Eq)]
pub enum Unread {
    /// One of gzip (RFC 1952).
    Gzip,
    /// One of ZIP (APPNOTE.TXT).
    Zip,
}

impl Unread {
    /// How many bytes its signature has.
    #[tactic(auto, unfolding(crate::specs::Headers::noted_as))]
    pub fn extent(&self) -> u32
        ensures { result ≡ (noted_as self.now).extent }
    {
        match self {
            Unread::Gzip => GZIP.len() as u32,
            Unread::Zip => ZIP.len() as u32,
        }
    }

    /// Its name, as the text of its feature.
    #[tactic(auto, unfolding(crate::specs::Headers::noted_as))]
    pub fn text(&self) -> &'static [u8]
        ensures { result.now ≡ (noted_as self.now).text }
    {
        match self {
            Unread::Gzip => b"gzip",
            Unread::Zip => b"zip",
        }
    }
}

// The two identifying bytes of gzip, and the method deflate.
const GZIP: &[u8] = b"\x1f\x8b\x08";

// The signature of a local file header of ZIP.
const ZIP: &[u8] = b"PK\x03\x04";

/// The compressed file that begins at the place: one of gzip (RFC 1952 section 2.3.1) whose method is
/// deflate, or the local file header of one of ZIP (APPNOTE.TXT section 4.3.7), as `unread_of` of
/// `specs/Exec.antt` has it. None exactly where neither signature stands there.
#[tactic(auto, unfolding(crate::specs::Exec::unread_of, crate::specs::Headers::noted_as))]
pub fn unread_at(look: &Look) -> Option<Unread>
    ensures { option_map noted_as result ≡ unread_of (seen look.now) }
{
    if look.after.starts_with(GZIP) {
        Some(Unread::Gzip)
    } else if look.after.starts_with(ZIP) {
        Some(Unread::Zip)
    } else {
        None
    }
}
