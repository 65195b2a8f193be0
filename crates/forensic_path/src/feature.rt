// What a scan finds.
ghost use Rattle.std.specs.Prelude.{◌≡◌, ◌≤◌};
ghost use Rattle.forensic_path.specs.Kinds.{number_of};

use crate::Path;
use byte_kit::Bytes;

/// What a feature is, in the order in which the features of one place stand.
#[derive(Clone, Copy, Debug, PartialEq, Eq)]
pub enum Kind {
    /// A URL.
    Url,
    /// The domain of a URL.
    Domain,
    /// An address of an IPv4 header.
    Ip,
    /// A hardware address of an Ethernet frame.
    Ether,
    /// The header of an executable.
    Exec,
    /// The signature of a member that is not read.
    Unread,
    /// A keyword, or what a pattern matched.
    Find,
    /// A word.
    Word,
}

impl Kind {
    /// Its number, from 1 in the order above, which is also that of the file of its features.
    #[inline]
    pub fn number(self) -> u32
        ensures number { result ≡ number_of self }
        ensures below { result ≤ 8 }
    {
        match self {
            Kind::Url => 1,
            Kind::Domain => 2,
            Kind::Ip => 3,
            Kind::Ether => 4,
            Kind::Exec => 5,
            Kind::Unread => 6,
            Kind::Find => 7,
            Kind::Word => 8,
        }
    }
}

/// What the lists of the user say of a feature.
#[derive(Clone, Copy, Debug, PartialEq, Eq)]
pub enum Class {
    /// No list has it.
    Plain,
    /// The stop list has it, and the alert list has not.
    Stopped,
    /// The alert list has it.
    Alert,
}

/// A feature: its kind, where it stands, its text, and the bytes around it.
#[derive(Drop)]
pub struct Feature {
    pub kind: Kind,
    pub path: Path,
    pub feature: Bytes,
    pub context: Bytes,
}

/// A feature with its class.
#[derive(Drop)]
pub struct Classed {
    pub class: Class,
    pub item: Feature,
}
