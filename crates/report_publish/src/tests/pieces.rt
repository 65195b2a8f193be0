// The pieces in which files are written.
use super::{published, with_steps};
use byte_kit::NoMemory;
use forensic_path::{Class, Classed, Kind};
use host_disk::{DiskCall, DiskFault, MemDisk};
use std::alloc::Global;
use std::test::Fail;

// The bytes of a URL, and where the pieces of the files 1 and 21 are written. A piece has at most 32,768.
type Row = (usize, &'static [(u64, u64)], &'static [(u64, u64)]);

// File 1 has a header of 82 bytes, a line of 4 more than its URL, and one of 5. File 21 has a header of 55, a
// row of 6, and one of 5 more than the URL. A line fills a piece, passes it by one, or is longer than a piece.
const PIECES: &[Row] = &[
    (32_682, &[(0, 32_768), (32_768, 5)], &[(0, 32_748)]),
    (32_683, &[(0, 82), (82, 32_692)], &[(0, 32_749)]),
    (32_702, &[(0, 82), (82, 32_711)], &[(0, 32_768)]),
    (32_703, &[(0, 82), (82, 32_712)], &[(0, 61), (61, 32_708)]),
    (
        32_765,
        &[(0, 82), (82, 32_769), (32_851, 5)],
        &[(0, 61), (61, 32_770)],
    ),
];

const FEATURES: (&[u8], &[u8]) = (
    b"# triage feature file, format 1\n# file: url.txt\n# columns: path, feature, context\n0\t",
    b"\t\n1\tu\t\n",
);

const HISTOGRAM: (&[u8], &[u8]) = (
    b"# triage histogram, format 1\n# file: url_histogram.txt\nn=1\tu\nn=1\t",
    b"\n",
);

// The bytes are the URL between these two.
fn is_around(bytes: &[u8], url: &[u8], (front, end): (&[u8], &[u8])) -> bool {
    match bytes.strip_prefix(front) {
        Some(rest) => rest.strip_prefix(url) == Some(end),
        None => false,
    }
}

// The places of the writes to a file, and how many bytes each has.
fn writes_to(alloc: Global, file: u32, calls: &[DiskCall]) -> Result<Vec<(u64, u64)>, NoMemory> {
    let mut writes = Vec::new(alloc);
    for call in calls {
        match *call {
            DiskCall::Write {
                file: to,
                at,
                bytes,
            } if to == file => writes.push((at, bytes))?,
            _ => {}
        }
    }
    Ok(writes)
}

// So many letters.
fn letters(alloc: Global, bytes: usize) -> Result<Vec<u8>, NoMemory> {
    let mut url = Vec::new(alloc);
    url.resize(bytes, b'u')?;
    Ok(url)
}

// A URL at place 0, and `u` at place 1.
fn urls(alloc: Global, url: &[u8]) -> Result<Vec<Classed>, NoMemory> {
    let mut items = Vec::new(alloc);
    items.push(with_steps(alloc, Class::Plain, Kind::Url, (0, 0), url, b"")?)?;
    items.push(with_steps(alloc, Class::Plain, Kind::Url, (1, 0), b"u", b"")?)?;
    Ok(items)
}

// The file was written at these places.
fn is_written_at(
    alloc: Global,
    disk: &MemDisk,
    file: u32,
    places: &[(u64, u64)],
) -> Result<bool, NoMemory> {
    Ok(writes_to(alloc, file, disk.calls())?.as_slice() == places)
}

// The URL and `u` are written in these pieces.
fn writes_pieces(alloc: Global, row: &Row) -> Result<bool, DiskFault> {
    let (bytes, features, histogram) = *row;
    let url = letters(alloc, bytes)?;
    let items = urls(alloc, url.as_slice())?;
    let (disk, result) = published(alloc, items.as_slice(), 1, &[])?;
    Ok(
        result == Ok(())
            && is_written_at(alloc, &disk, 1, features)?
            && is_written_at(alloc, &disk, 21, histogram)?
            && is_around(disk.file(1), url.as_slice(), FEATURES)
            && is_around(disk.file(21), url.as_slice(), HISTOGRAM),
    )
}

#[test]
fn pieces_are_written_behind_one_another(rt: HostRuntime) -> Result<(), Fail> {
    for row in PIECES {
        let is_so = writes_pieces(rt.alloc(), row)?;
        assert!(rt; is_so, "of {row:?}");
    }
    Ok(())
}
