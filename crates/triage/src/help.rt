// What the program says of itself: the page on how it is used, its version, and where the page is had.
ghost use Rattle.std.specs.Prelude.{◌≡◌, length, IfSome};

/// A command line that asks for a text and for no scan: one of these words, alone.
const QUESTIONS: &[(&str, &[&str])] = &[
    ("--help", PAGE),
    ("-h", PAGE),
    ("help", PAGE),
    ("--version", VERSION),
    ("-V", VERSION),
];

/// The line on standard error behind a bad word.
pub const HINT: &str = "`triage --help` prints the words that there are";

const VERSION: &[&str] = &["triage 0.1.0"];

const PAGE: &[&str] = &[
    "triage tells what a raw disk image holds, without reading its file system: URLs,",
    "domains, packets, executables, words, and keywords and patterns of yours, also",
    "inside Base64, hexadecimal digits, UTF-16 and XOR data.",
    "",
    "usage:",
    "  triage scan [OPTION ..] PART .. OUT     scan the image in the file PART, or in up to",
    "                                      64 files, one behind the other, and write the",
    "                                      report into the folder OUT",
    "  triage generate [OPTION ..] SEED SIZE   make an image of SIZE bytes, at most 64 MiB,",
    "                                      scan it in memory, and print what was found",
    "  triage --help                       print this page (-h and help do too)",
    "  triage --version                    print name and version (-V does too)",
    "",
    "options, ahead of PART or SEED, each once where it says nothing else:",
    "  -e SCANNER          turn a scanner on, -x SCANNER turns it off; any number of times,",
    "                      from left to right: url domain net exec unread find word base64",
    "                      hex utf16. All but word are on",
    "  --find KEYWORD      list each place of a keyword, 1 to 256 bytes; up to 64 times",
    "  --pattern PATTERN   list each match of a pattern, in the syntax of Rust's regex",
    "                      crate, 1 to 256 bytes; up to 4 times",
    "  --stop LIST         what the file LIST names goes to the stopped files; scan alone",
    "  --alert LIST        what the file LIST names stands in alerts.txt too; scan alone",
    "  --context BYTES     bytes around each feature, 0 to 128 (16)",
    "  --depth LEVELS      how deep encoded data is searched, 0 to 7 (5)",
    "  --xor MASK          search under this mask too, 1 to 255 (none)",
    "  --word-min BYTES    the shortest word, 1 to 256 (6)",
    "  --word-max BYTES    the longest word, 1 to 256 (14)",
    "  --page BYTES        the size of a page, 512 to 16777216 (16777216); the report is",
    "                      the same for each",
    "  --margin BYTES      131072 to 4194304 (4194304); the report is the same for each",
    "  --workers COUNT     1 to 8 (4); changes nothing yet",
    "  --spool-limit BYTES 1 to 281474976710656 (1099511627776); changes nothing yet",
    "  --log               not yet",
    "",
    "lists: a line is a feature, or a feature, a TAB and its context, or a line of a",
    "  feature file; lines that begin with # are passed. At most 16 MiB each.",
    "",
    "files in OUT, of the scanners that are on:",
    "  url.txt domain.txt    URLs, and the domains in them",
    "  ip.txt ether.txt      addresses of IPv4 and Ethernet headers",
    "  exec.txt              ELF and PE headers",
    "  unread.txt            where gzip and ZIP members begin, which are not read",
    "  find.txt              keywords and patterns",
    "  wordlist.txt          words",
    "  url_stopped.txt ..    what the stop list names, a file for each of these",
    "  alerts.txt            what the alert list names",
    "  url_histogram.txt ..  how often each was found, the most frequent first, for url,",
    "                        domain, ip, ether and find; url_services_histogram.txt for",
    "                        URLs up to their path",
    "",
    "exit status:",
    "  0 done, and the report stands    8 the report could not be written",
    "  2 a bad word                    13 done, but the counts could not be printed",
    "  3 a list is too long            14 no memory",
    "  4 an image or a list could      15 not yet: a log",
    "    not be read",
    "  5 a pattern could not be read",
    "  7 more than 1048576 pages",
    "",
    "examples:",
    "  triage scan --find 'Project Heron' --stop known.txt disk.raw report",
    "  triage scan disk.001 disk.002 disk.003 report",
];

/// The lines that a command line asks for, where it asks for a text and for no scan.
pub fn lines_asked(words: &[String]) -> Option<&'static [&'static str]>
    ensures { IfSome result (λ lines. length words.now ≡ 1) }
{
    let [word] = words else {
        return None;
    };
    for (question, lines) in QUESTIONS {
        if word.as_str() == *question {
            return Some(*lines);
        }
    }
    None
}
