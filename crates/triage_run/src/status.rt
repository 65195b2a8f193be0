// How a call ends.
ghost use Rattle.std.specs.Prelude.{◌≡◌};
ghost use Rattle.triage_run.specs.Status.{number_of};

use scan_settings::Why;

/// How a call ends. Each status but `Done` is a refusal, and comes only where its cause is.
#[derive(Clone, Copy, Debug, PartialEq, Eq)]
pub enum Status {
    /// The command was done.
    Done,
    /// The word of this number, counted from 0, is the first bad one.
    Usage { word: u32, why: Why },
    /// This list has so many bytes, which are more than are read.
    ListTooLong { list: List, size: u64 },
    /// A source failed.
    ReadFault { place: ReadPlace },
    /// The kit did not read the text of the pattern of this number, counted from 0.
    PatternRefused { index: u32 },
    /// The image has so many pages, which are more than are scanned.
    TooManyPages { pages: u64 },
    /// The disk failed.
    DiskFault,
    /// The report stands, and the sink failed to take its text.
    OutFault,
    /// The allocator had no room.
    NoMemory,
    /// The command has a form that isn't built yet.
    NotYet { what: Unbuilt },
}

/// A list that classes what is found.
#[derive(Clone, Copy, Debug, PartialEq, Eq)]
pub enum List {
    /// What it names is stopped.
    Stop,
    /// What it names is an alert.
    Alert,
}

/// What a source failed to give.
#[derive(Clone, Copy, Debug, PartialEq, Eq)]
pub enum ReadPlace {
    /// The stop list could not be attached or read.
    StopList,
    /// The alert list could not be attached or read.
    AlertList,
    /// A part of the image could not be attached.
    Image,
    /// The bytes of this page, counted from 0, could not be read.
    Page(u64),
}

/// A form of a command that isn't built yet.
#[derive(Clone, Copy, Debug, PartialEq, Eq)]
pub enum Unbuilt {
    /// The log of a scan.
    Log,
}

impl Status {
    ghost use Rattle.triage_run.specs.Status.{number_of};

    /// The exit status of a program that ends so.
    pub fn number(&self) -> u8
        ensures { result ≡ number_of self.now }
    {
        match self {
            Status::Done => 0,
            Status::Usage { .. } => 2,
            Status::ListTooLong { .. } => 3,
            Status::ReadFault { .. } => 4,
            Status::PatternRefused { .. } => 5,
            Status::TooManyPages { .. } => 7,
            Status::DiskFault => 8,
            Status::OutFault => 13,
            Status::NoMemory => 14,
            Status::NotYet { .. } => 15,
        }
    }
}
