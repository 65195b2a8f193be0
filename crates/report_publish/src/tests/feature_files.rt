// The texts of feature files.
use super::{features, files_are, published};
use forensic_path::Classed;
use host_disk::DiskFault;
use std::alloc::Global;
use std::test::Fail;

pub(super) const URLS: &str = "# triage feature file, format 1
# file: url.txt
# columns: path, feature, context
4\thttp://a.b\t(http://a.b)\\x0A
40\tftp://e\t<ftp://e\\x5C
100-BASE64-7\thttp://a.b\t
";

const DOMAINS: &str = "# triage feature file, format 1
# file: domain.txt
# columns: path, feature, context
11\ta.b\t//a.b)\\x0A
46\te\t//e\\x09
";

const ADDRESSES: &str = "# triage feature file, format 1
# file: ip.txt
# columns: path, feature, context
50\t1.2.3.4\t
";

const HARDWARE: &str = "# triage feature file, format 1
# file: ether.txt
# columns: path, feature, context
50\t01:02:03:04:05:06\t
";

const EXECUTABLES: &str = "# triage feature file, format 1
# file: exec.txt
# columns: path, feature, context
60\texec\t
";

const UNREAD: &str = "# triage feature file, format 1
# file: unread.txt
# columns: path, feature, context
60\tunread\t
";

const WORDS: &str = "# triage feature file, format 1
# file: wordlist.txt
# columns: path, feature, context
60\tword\t
";

pub(super) const ALERTS: &str = "# triage feature file, format 1
# file: alerts.txt
# columns: path, feature, context
40\tftp://e\t<ftp://e\\x5C
46\te\t//e\\x09
50\t01:02:03:04:05:06\t
60\tfind\t
";

const STOPPED_URLS: &str = "# triage feature file, format 1
# file: url_stopped.txt
# columns: path, feature, context
20\thttp://c.d\thttp://c.d
";

const STOPPED_ADDRESSES: &str = "# triage feature file, format 1
# file: ip_stopped.txt
# columns: path, feature, context
";

// Scanners, files and their texts, and how many calls are made.
const REPORTS: &[(u16, &[(u32, &str)], usize)] = &[
    (
        31,
        &[
            (1, URLS),
            (2, DOMAINS),
            (3, ADDRESSES),
            (4, HARDWARE),
            (5, EXECUTABLES),
            (6, UNREAD),
            (8, ""),
            (9, ALERTS),
            (11, STOPPED_URLS),
            (13, STOPPED_ADDRESSES),
        ],
        55,
    ),
    (1, &[(1, URLS), (2, "second"), (11, STOPPED_URLS)], 16),
    (20, &[(1, "first"), (3, ADDRESSES), (6, UNREAD)], 28),
    (64, &[(1, "first"), (8, WORDS), (9, ALERTS)], 10),
    (0, &[(1, "first"), (8, ""), (9, ALERTS), (11, "")], 4),
];

// The report by the scanners has these texts, and is written by so many calls.
fn writes(
    alloc: Global,
    items: &[Classed],
    scanners: u16,
    texts: &[(u32, &str)],
    calls: usize,
) -> Result<bool, DiskFault> {
    let (disk, result) = published(alloc, items, scanners, &[])?;
    Ok(result == Ok(()) && files_are(&disk, texts) && disk.calls().len() == calls)
}

#[test]
fn each_file_has_the_lines_of_its_kind(rt: HostRuntime) -> Result<(), Fail> {
    let items = features(rt.alloc())?;
    for (scanners, texts, calls) in REPORTS {
        let is_so = writes(rt.alloc(), items.as_slice(), *scanners, texts, *calls)?;
        assert!(rt; is_so, "by {scanners}");
    }
    Ok(())
}
