// The searches that are timed.
ghost use Rattle.scan_set.specs.Lawful.{IsLawful};

use crate::keywords::{KEYWORDS, PATTERNS};
use byte_kit::{Bytes, Names, NoMemory, Texts};
use pattern_kit::{Kit, RegexKit, RegexMatcher, WordMatcher};
use sbuf_nest::{Found, Sbuf, Starts};
use scan_exec::find_execs;
use scan_find::{Lengths, PATTERNS_MOST, are_keywords, find_given_into};
use scan_net::find_packets;
use scan_set::{ScanPlan, Tools, scan_owned};
use scan_url::find_urls;
use scan_wordlist::find_words;
use std::alloc::Global;

// The scanners and decoders that are on in a search for everything, a bit each: all but the one for
// words, which is mostly off.
const SCANNERS: u16 = 0x03BF;

// How many buffers deep decoded bytes are searched.
const DEPTH: u8 = 5;

// The mask of the XOR view, where it is searched.
const MASK: u8 = 255;

// How many bytes of context a feature has on either side.
const CONTEXT_BYTES: u16 = 16;

// The fewest bytes of a word, and the most.
const WORD_LEAST: u16 = 6;

const WORD_MOST: u16 = 14;

/// What is searched for.
#[derive(Clone, Copy)]
pub enum Search {
    /// URLs and domains.
    Url,
    /// Packets.
    Net,
    /// Executables and compressed files.
    Exec,
    /// So many keywords, up to 64.
    Find(usize),
    /// So many patterns, up to 4.
    Pattern(usize),
    /// Words.
    Word,
    /// Where Base64 texts begin.
    Base64,
    /// Where runs of hexadecimal digits begin.
    Hex,
    /// Where runs of UTF-16 pairs begin.
    Utf16,
    /// All that a scan finds, as features with their paths and contexts.
    All,
    /// The same, in the XOR view of each buffer too.
    Xor,
}

// The searches by their names.
const NAMES: &[(&str, Search)] = &[
    ("url", Search::Url),
    ("net", Search::Net),
    ("exec", Search::Exec),
    ("find1", Search::Find(1)),
    ("find", Search::Find(8)),
    ("find64", Search::Find(64)),
    ("pattern1", Search::Pattern(1)),
    ("pattern", Search::Pattern(4)),
    ("word", Search::Word),
    ("base64", Search::Base64),
    ("hex", Search::Hex),
    ("utf16", Search::Utf16),
    ("all", Search::All),
    ("xor", Search::Xor),
];

impl Search {
    /// The search that a word names.
    pub fn named(word: &str) -> Option<Search> {
        for (name, search) in NAMES {
            if *name == word {
                return Some(*search);
            }
        }
        None
    }
}

// The plan of a search for everything, with a mask, or 0 for none.
fn plan_of(alloc: Global, mask: u8) -> ScanPlan
    ensures { IsLawful result }
{
    ScanPlan {
        scanners: SCANNERS,
        depth: DEPTH,
        mask,
        word_min: WORD_LEAST,
        word_max: WORD_MOST,
        context: CONTEXT_BYTES,
        keywords: Texts::make(alloc),
        patterns: Names::make(alloc),
    }
}

/// The lists that the searches fill, kept from one run to the next.
#[derive(Drop)]
pub struct Searcher {
    alloc: Global,
    plan: ScanPlan,
    masked: ScanPlan,
    tools: Tools<WordMatcher>,
    keywords: Vec<Bytes>,
    matchers: Vec<RegexMatcher>,
    lengths: Lengths,
    found: Found,
    starts: Starts,
    ghost lawful: { IsLawful plan },
    ghost masked_lawful: { IsLawful masked },
}

impl Searcher {
    /// A searcher that has found nothing yet.
    pub fn make(alloc: Global) -> Result<Searcher, NoMemory> {
        let plan = plan_of(alloc, 0);
        let tools = Tools::make(alloc, &plan, Vec::new(alloc))?;
        Ok(Searcher {
            alloc,
            plan,
            masked: plan_of(alloc, MASK),
            tools,
            keywords: keywords_of(alloc)?,
            matchers: matchers_of(alloc)?,
            lengths: Lengths::make(alloc),
            found: Found::make(alloc),
            starts: Starts::make(alloc),
        })
    }

    /// Searches the buffer, and gives how many marks, starts or features that finds.
    pub fn run(&mut self, search: Search, sb: &Sbuf) -> Result<usize, NoMemory> {
        self.found.clear();
        self.starts.clear();
        match search {
            Search::Url => find_urls(sb, true, true, &mut self.found)?,
            Search::Net => find_packets(sb, &mut self.found)?,
            Search::Exec => find_execs(sb, true, true, &mut self.found)?,
            Search::Find(count) => self.find_keywords(count, sb)?,
            Search::Pattern(count) => self.find_patterns(count, sb)?,
            Search::Word => find_words(sb, WORD_LEAST, WORD_MOST, &mut self.found)?,
            Search::Base64 => decode_base64::find_texts(sb, &mut self.starts)?,
            Search::Hex => decode_hex::find_runs(sb, &mut self.starts)?,
            Search::Utf16 => decode_views::find_runs(sb, &mut self.starts)?,
            Search::All => return Ok(scan_owned(sb, &self.plan, &mut self.tools)?.len()),
            Search::Xor => return Ok(scan_owned(sb, &self.masked, &mut self.tools)?.len()),
        }
        let marks = self.found.marks().len();
        Ok(marks.saturating_add(self.starts.items().len()))
    }

    // Searches the buffer for the first so many keywords.
    fn find_keywords(&mut self, count: usize, sb: &Sbuf) -> Result<(), NoMemory> {
        let all = self.keywords.as_slice();
        let (keywords, _) = all.split_at(count.min(all.len()));
        if !are_keywords(keywords) {
            return Ok(());
        }
        let no_patterns: &mut [WordMatcher] = &mut [];
        let (lengths, found) = (&mut self.lengths, &mut self.found);
        find_given_into(self.alloc, sb, keywords, no_patterns, lengths, found)
    }

    // Searches the buffer for the first so many patterns.
    fn find_patterns(&mut self, count: usize, sb: &Sbuf) -> Result<(), NoMemory> {
        let count = count.min(self.matchers.len()).min(PATTERNS_MOST);
        let (matchers, _) = self.matchers.as_mut_slice().split_at_mut(count);
        let (lengths, found) = (&mut self.lengths, &mut self.found);
        find_given_into(self.alloc, sb, &[], matchers, lengths, found)
    }
}

// The keywords, as a search takes them.
fn keywords_of(alloc: Global) -> Result<Vec<Bytes>, NoMemory> {
    let mut keywords = Vec::new(alloc);
    for text in KEYWORDS {
        keywords.push(Bytes::copy(alloc, text.as_bytes())?)?;
    }
    Ok(keywords)
}

// The matchers of the patterns, of which none is refused.
fn matchers_of(alloc: Global) -> Result<Vec<RegexMatcher>, NoMemory> {
    let mut kit = RegexKit::make();
    let mut matchers = Vec::new(alloc);
    for text in PATTERNS {
        let Ok(matcher) = kit.build(alloc, 0, text) else {
            return Err(NoMemory);
        };
        matchers.push(matcher)?;
    }
    Ok(matchers)
}
