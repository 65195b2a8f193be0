// The texts of histograms.
use super::{OLD, features, files_are, published, with_steps};
use byte_kit::NoMemory;
use forensic_path::{Class, Classed, Kind};
use host_disk::{DiskCall, DiskFault};
use std::alloc::Global;
use std::test::Fail;

pub(super) const URL_ROWS: &str = "# triage histogram, format 1
# file: url_histogram.txt
n=2\thttp://a.b
n=1\tftp://e
";

const SERVICE_ROWS: &str = "# triage histogram, format 1
# file: url_services_histogram.txt
n=2\thttp://a.b
n=1\tftp://e
";

const DOMAIN_ROWS: &str = "# triage histogram, format 1
# file: domain_histogram.txt
n=1\ta.b
n=1\te
";

const ADDRESS_ROWS: &str = "# triage histogram, format 1
# file: ip_histogram.txt
n=1\t1.2.3.4
";

const HARDWARE_ROWS: &str = "# triage histogram, format 1
# file: ether_histogram.txt
n=1\t01:02:03:04:05:06
";

pub(super) const FOUND_ROWS: &str = "# triage histogram, format 1
# file: find_histogram.txt
n=1\tfind
";

// Scanners, and the histograms of features of all classes. What is stopped is in none, and that of a
// scanner that is off is as it was.
const BY_SCANNERS: &[(u16, &[(u32, &str)])] = &[
    (
        31,
        &[
            (21, URL_ROWS),
            (22, SERVICE_ROWS),
            (23, DOMAIN_ROWS),
            (24, ADDRESS_ROWS),
            (25, HARDWARE_ROWS),
            (26, OLD),
        ],
    ),
    (
        1,
        &[(21, URL_ROWS), (22, SERVICE_ROWS), (23, ""), (26, OLD)],
    ),
    (
        34,
        &[(21, OLD), (22, ""), (23, DOMAIN_ROWS), (26, FOUND_ROWS)],
    ),
    (64, &[(21, OLD), (26, OLD)]),
];

// The report of the features by the scanners has these texts.
fn has_texts(
    alloc: Global,
    items: &[Classed],
    scanners: u16,
    texts: &[(u32, &str)],
) -> Result<bool, DiskFault> {
    let (disk, result) = published(alloc, items, scanners, &[])?;
    Ok(result == Ok(()) && files_are(&disk, texts))
}

#[test]
fn a_histogram_counts_what_is_not_stopped(rt: HostRuntime) -> Result<(), Fail> {
    let items = features(rt.alloc())?;
    for (scanners, texts) in BY_SCANNERS {
        let is_so = has_texts(rt.alloc(), items.as_slice(), *scanners, texts)?;
        assert!(rt; is_so, "by {scanners}");
    }
    Ok(())
}

// Kinds, features of them, and how often each is found.
const REPEATED: &[(Kind, &str, u64)] = &[
    (Kind::Find, "A", 1),
    (Kind::Find, "nine", 9),
    (Kind::Find, "ten", 10),
    (Kind::Find, "\t", 1),
    (Kind::Find, "eleven", 11),
    (Kind::Url, "http://a.B/y?q", 1),
    (Kind::Url, "HTTP://A.b/x", 1),
    (Kind::Domain, "a.B", 1),
    (Kind::Domain, "A.b", 1),
];

// Their histograms: counts are compared as numbers, and then bytes as they are and not as they are escaped; a
// service has no path, and a service and a domain are in lower case.
const ORDERED: &[(u32, &str)] = &[
    (
        21,
        "# triage histogram, format 1
# file: url_histogram.txt
n=1\tHTTP://A.b/x
n=1\thttp://a.B/y?q
",
    ),
    (
        22,
        "# triage histogram, format 1
# file: url_services_histogram.txt
n=2\thttp://a.b
",
    ),
    (
        23,
        "# triage histogram, format 1
# file: domain_histogram.txt
n=2\ta.b
",
    ),
    (
        26,
        "# triage histogram, format 1
# file: find_histogram.txt
n=11\televen
n=10\tten
n=9\tnine
n=1\t\\x09
n=1\tA
",
    ),
];

// Adds a plain feature so often.
fn push_times(
    alloc: Global,
    items: &mut Vec<Classed>,
    kind: Kind,
    feature: &str,
    times: u64,
) -> Result<(), NoMemory> {
    for top in 0..times {
        items.push(with_steps(alloc, Class::Plain, kind, (top, 0), feature.as_bytes(), b"")?)?;
    }
    Ok(())
}

// All of them.
fn repeated(alloc: Global) -> Result<Vec<Classed>, NoMemory> {
    let mut items = Vec::new(alloc);
    for (kind, feature, times) in REPEATED {
        push_times(alloc, &mut items, *kind, feature, *times)?;
    }
    Ok(items)
}

#[test]
fn rows_stand_by_count_and_then_by_bytes(rt: HostRuntime) -> Result<(), Fail> {
    let items = repeated(rt.alloc())?;
    assert!(rt; has_texts(rt.alloc(), items.as_slice(), 35, ORDERED)?);
    Ok(())
}

// The files of a report of no feature: their headers. What was longer is cut.
const EMPTY: &[(u32, &str)] = &[
    (
        21,
        "# triage histogram, format 1\n# file: url_histogram.txt\n",
    ),
    (
        22,
        "# triage histogram, format 1\n# file: url_services_histogram.txt\n",
    ),
    (26, OLD),
    (40, "other"),
];

// The calls that write it: the feature files at once, and then one histogram after another.
const EMPTY_CALLS: &[DiskCall] = &[
    DiskCall::Mount,
    DiskCall::Cut { file: 1, to: 0 },
    DiskCall::Cut { file: 9, to: 0 },
    DiskCall::Cut { file: 11, to: 0 },
    DiskCall::Write {
        file: 1,
        at: 0,
        bytes: 82,
    },
    DiskCall::Write {
        file: 9,
        at: 0,
        bytes: 85,
    },
    DiskCall::Write {
        file: 11,
        at: 0,
        bytes: 90,
    },
    DiskCall::Sync { file: 1 },
    DiskCall::Sync { file: 9 },
    DiskCall::Sync { file: 11 },
    DiskCall::Cut { file: 21, to: 0 },
    DiskCall::Write {
        file: 21,
        at: 0,
        bytes: 55,
    },
    DiskCall::Sync { file: 21 },
    DiskCall::Cut { file: 22, to: 0 },
    DiskCall::Write {
        file: 22,
        at: 0,
        bytes: 64,
    },
    DiskCall::Sync { file: 22 },
];

// The report of no feature by the scanner of URLs has these texts, and is written by these calls.
fn writes_headers(alloc: Global) -> Result<bool, DiskFault> {
    let (disk, result) = published(alloc, &[], 1, &[])?;
    Ok(result == Ok(()) && files_are(&disk, EMPTY) && disk.calls() == EMPTY_CALLS)
}

#[test]
fn each_file_is_cut_written_and_synced(rt: HostRuntime) -> Result<(), Fail> {
    assert!(rt; writes_headers(rt.alloc())?);
    Ok(())
}
