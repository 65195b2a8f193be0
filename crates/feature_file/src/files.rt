// The files of a report, by number.
ghost use Rattle.std.specs.Prelude.{◌≡◌, true, option_map, IsSome};
ghost use Rattle.feature_file.specs.Files.{file_name_of, is_histogram, is_written, report_files};

use forensic_path::Scanner;

/// The name of the file with this number. `None` exactly where the number has no name.
#[tactic(auto, unfolding(crate::specs::Files::report_files))]
pub fn file_name(file: u32) -> Option<&'static str>
    ensures { option_map (λ name. name.now) result ≡ file_name_of file }
{
    let name = match file {
        0 => "spool.bin",
        1 => "url.txt",
        2 => "domain.txt",
        3 => "ip.txt",
        4 => "ether.txt",
        5 => "exec.txt",
        6 => "unread.txt",
        7 => "find.txt",
        8 => "wordlist.txt",
        9 => "alerts.txt",
        11 => "url_stopped.txt",
        12 => "domain_stopped.txt",
        13 => "ip_stopped.txt",
        14 => "ether_stopped.txt",
        15 => "exec_stopped.txt",
        16 => "unread_stopped.txt",
        17 => "find_stopped.txt",
        18 => "wordlist_stopped.txt",
        21 => "url_histogram.txt",
        22 => "url_services_histogram.txt",
        23 => "domain_histogram.txt",
        24 => "ip_histogram.txt",
        25 => "ether_histogram.txt",
        26 => "find_histogram.txt",
        _ => return None,
    };
    Some(name)
}

/// Whether the file with this number is written where these scanners are on. A number without a name has
/// no file, so none is written.
#[tactic(auto, unfolding(crate::specs::Files::report_files))]
pub fn is_written(file: u32, scanners: u16) -> bool
    ensures written { result ≡ is_written file scanners }
    ensures named { result ≡ true → IsSome (file_name_of file) }
{
    match file {
        0 | 9 => true,
        1 | 11 | 21 | 22 => Scanner::Url.is_on(scanners),
        2 | 12 | 23 => Scanner::Domain.is_on(scanners),
        3 | 4 | 13 | 14 | 24 | 25 => Scanner::Net.is_on(scanners),
        5 | 15 => Scanner::Exec.is_on(scanners),
        6 | 16 => Scanner::Unread.is_on(scanners),
        7 | 17 | 26 => Scanner::Find.is_on(scanners),
        8 | 18 => Scanner::Word.is_on(scanners),
        _ => false,
    }
}

// Whether the file with this number is a histogram.
pub(crate) fn is_histogram(file: u32) -> bool
    ensures { result ≡ is_histogram file }
{
    21 <= file && file <= 26
}
