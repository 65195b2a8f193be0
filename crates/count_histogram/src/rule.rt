// What a histogram counts.
ghost use Rattle.std.specs.Prelude.{◌≡◌};
ghost use Rattle.count_histogram.specs.Rules.{file_of, kind_of, rule_of, source_of};

use forensic_path::Kind;

/// What is counted of the features of a kind: a rule for each histogram, in the order of their files, 21
/// to 26.
#[derive(Clone, Copy, Debug, PartialEq, Eq)]
pub enum Rule {
    /// URLs, as they are.
    Url,
    /// The services of URLs: the scheme and what follows it up to the path, in lower case.
    Service,
    /// Domains, in lower case.
    Domain,
    /// The addresses of IPv4 headers.
    Ip,
    /// The hardware addresses of Ethernet frames.
    Ether,
    /// What keywords and patterns found.
    Find,
}

impl Rule {
    /// The rule of the histogram with this number. `None` exactly where no histogram has it.
    pub fn of_file(file: u32) -> Option<Rule>
        ensures { result ≡ rule_of file }
    {
        match file {
            21 => Some(Rule::Url),
            22 => Some(Rule::Service),
            23 => Some(Rule::Domain),
            24 => Some(Rule::Ip),
            25 => Some(Rule::Ether),
            26 => Some(Rule::Find),
            _ => None,
        }
    }

    /// The number of its histogram's file.
    pub fn file(self) -> u32
        ensures { result ≡ file_of self }
    {
        match self {
            Rule::Url => 21,
            Rule::Service => 22,
            Rule::Domain => 23,
            Rule::Ip => 24,
            Rule::Ether => 25,
            Rule::Find => 26,
        }
    }

    /// The kind whose features are counted.
    pub fn kind(self) -> Kind
        ensures { result ≡ kind_of self }
    {
        match self {
            Rule::Url | Rule::Service => Kind::Url,
            Rule::Domain => Kind::Domain,
            Rule::Ip => Kind::Ip,
            Rule::Ether => Kind::Ether,
            Rule::Find => Kind::Find,
        }
    }

    /// The number of the feature file whose features are counted: that of the kind, in which those that a
    /// list stops don't stand.
    pub fn source(self) -> u32
        ensures { result ≡ source_of self }
    {
        self.kind().number()
    }
}
