// The scanners and decoders that a plan switches on and off.
ghost use Rattle.std.specs.Prelude.{◌≡◌, ◌<◌};
ghost use Rattle.forensic_path.specs.Scanners.{bit_of, word_of, is_on};

/// A scanner or a decoder, by what it looks for. A number whose bits say which are on is a plan's
/// `scanners`.
#[derive(Clone, Copy, Debug, PartialEq, Eq)]
pub enum Scanner {
    /// URLs.
    Url,
    /// The domains of URLs.
    Domain,
    /// The addresses of packets.
    Net,
    /// The headers of executables.
    Exec,
    /// The signatures of members that are not read.
    Unread,
    /// Keywords and patterns.
    Find,
    /// Words.
    Word,
    /// The decoder of Base64 texts.
    Base64,
    /// The decoder of hexadecimal digits.
    Hex,
    /// The decoder of UTF-16 runs.
    Utf16,
}

impl Scanner {
    /// The bit that stands for it, counted from the lowest, 0.
    #[inline]
    pub fn bit(self) -> u32
        ensures bit { result ≡ bit_of self }
        ensures below { result < 10 }
    {
        match self {
            Scanner::Url => 0,
            Scanner::Domain => 1,
            Scanner::Net => 2,
            Scanner::Exec => 3,
            Scanner::Unread => 4,
            Scanner::Find => 5,
            Scanner::Word => 6,
            Scanner::Base64 => 7,
            Scanner::Hex => 8,
            Scanner::Utf16 => 9,
        }
    }

    /// The word that names it on a command line.
    pub fn word(self) -> &'static str
        ensures { result.now ≡ word_of self }
    {
        match self {
            Scanner::Url => "url",
            Scanner::Domain => "domain",
            Scanner::Net => "net",
            Scanner::Exec => "exec",
            Scanner::Unread => "unread",
            Scanner::Find => "find",
            Scanner::Word => "word",
            Scanner::Base64 => "base64",
            Scanner::Hex => "hex",
            Scanner::Utf16 => "utf16",
        }
    }

    /// Whether it is on in a plan with these bits.
    #[inline]
    pub fn is_on(self, scanners: u16) -> bool
        ensures { result ≡ is_on scanners self }
    {
        (scanners >> self.bit()) & 1 == 1
    }
}
