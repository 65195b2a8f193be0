use crate::{Counts, Row, Rule, item_into, item_of, row_line, row_line_into};
use byte_kit::{Bytes, NoMemory};
use std::alloc::Global;
use std::test::Fail;

// Files, and the feature file that each histogram counts.
const SOURCES: &[(u32, Option<u32>)] = &[
    (20, None),
    (21, Some(1)),
    (22, Some(1)),
    (23, Some(2)),
    (24, Some(3)),
    (25, Some(4)),
    (26, Some(7)),
    (27, None),
];

// The file is a histogram that counts this feature file, or none.
fn has_source(file: u32, source: Option<u32>) -> bool {
    match Rule::of_file(file) {
        Some(rule) => rule.file() == file && Some(rule.source()) == source,
        None => source.is_none(),
    }
}

#[test]
fn a_histogram_counts_the_features_of_a_file(rt: HostRuntime) {
    for (file, source) in SOURCES {
        assert!(rt; has_source(*file, *source), "file {file}");
    }
}

// A feature, and its item by a rule.
const ITEMS: &[(Rule, &[u8], &[u8])] = &[
    (Rule::Url, b"HTTP://A.b/x", b"HTTP://A.b/x"),
    (Rule::Service, b"HTTP://A.b/x", b"http://a.b"),
    (Rule::Service, b"ftp://U@H:21?A/b", b"ftp://u@h:21"),
    (Rule::Service, b"httpS://[::1]#A", b"https://[::1]"),
    (Rule::Service, b"http:///x", b"http://"),
    // without a scheme a URL ends at its first slash
    (Rule::Service, b"http:/A", b"http:"),
    (Rule::Service, b"GOPHER://a/b", b"gopher:"),
    (Rule::Service, b"", b""),
    (Rule::Domain, b"A-1.Example/\xc4", b"a-1.example/\xc4"),
    (Rule::Ip, b"10.0.0.1 S ", b"10.0.0.1 S "),
    (Rule::Ether, b"00:1B:44", b"00:1B:44"),
    (Rule::Find, b"Find/\xc4", b"Find/\xc4"),
];

// The feature has this item.
fn has_item(alloc: Global, rule: Rule, feature: &[u8], item: &[u8]) -> Result<bool, NoMemory> {
    Ok(item_of(alloc, rule, feature)?.as_slice() == item)
}

#[test]
fn a_feature_has_an_item_by_a_rule(rt: HostRuntime) -> Result<(), Fail> {
    for (rule, feature, item) in ITEMS {
        assert!(rt;
            has_item(rt.alloc(), *rule, feature, item)?,
            "of {feature:?}"
        );
    }
    Ok(())
}

// The counts of the items of features.
fn counts_of(alloc: Global, rule: Rule, features: &[&[u8]]) -> Result<Counts, NoMemory> {
    let mut counts = Counts::make(alloc);
    let mut item = Vec::new(alloc);
    for feature in features {
        item.clear();
        item_into(rule, feature, &mut item)?;
        counts.add(item.as_slice())?;
    }
    Ok(counts)
}

// The lines of the rows, each with an LF.
fn lines_of(alloc: Global, rows: &[Row]) -> Result<Vec<u8>, NoMemory> {
    let mut lines = Vec::new(alloc);
    for row in rows {
        row_line_into(row, &mut lines)?;
        lines.push(b'\n')?;
    }
    Ok(lines)
}

// Features, and the lines of their histogram by a rule.
const HISTOGRAMS: &[(Rule, &[&[u8]], &[u8])] = &[
    (Rule::Url, &[], b""),
    (
        Rule::Url,
        &[b"HTTP://A.b/x", b"http://a.B/y"],
        b"n=1\tHTTP://A.b/x\nn=1\thttp://a.B/y\n",
    ),
    (
        Rule::Service,
        &[b"HTTP://A.b/x", b"http://a.B/y"],
        b"n=2\thttp://a.b\n",
    ),
    // the bytes are compared, and not their escapes
    (Rule::Find, &[b"A", b"\t"], b"n=1\t\\x09\nn=1\tA\n"),
    (
        Rule::Find,
        &[b"\xff", b"~", b"", b"~~"],
        b"n=1\t\nn=1\t~\nn=1\t~~\nn=1\t\\xFF\n",
    ),
    // counts are compared as numbers
    (
        Rule::Find,
        &[
            b"9", b"9", b"9", b"9", b"9", b"9", b"9", b"9", b"9", b"10", b"10", b"10", b"10",
            b"10", b"10", b"10", b"10", b"10", b"10", b"11", b"11", b"11", b"11", b"11", b"11",
            b"11", b"11", b"11", b"11", b"11",
        ],
        b"n=11\t11\nn=10\t10\nn=9\t9\n",
    ),
];

// The histogram has these lines.
fn has_lines(
    alloc: Global,
    rule: Rule,
    features: &[&[u8]],
    lines: &[u8],
) -> Result<bool, NoMemory> {
    let rows = counts_of(alloc, rule, features)?.rows()?;
    Ok(lines_of(alloc, rows.as_slice())?.as_slice() == lines)
}

#[test]
fn rows_stand_by_count_and_then_by_bytes(rt: HostRuntime) -> Result<(), Fail> {
    for (rule, features, lines) in HISTOGRAMS {
        assert!(rt;
            has_lines(rt.alloc(), *rule, features, lines)?,
            "of {features:?}"
        );
    }
    Ok(())
}

// Two items of so many bytes that differ in their last.
fn two_items(alloc: Global, len: usize) -> Result<(Vec<u8>, Vec<u8>), NoMemory> {
    let mut first = Vec::new(alloc);
    first.resize(len, b'a')?;
    let mut second = Vec::from_slice(alloc, first.as_slice())?;
    first.push(b'1')?;
    second.push(b'2')?;
    Ok((first, second))
}

// They are counted apart.
fn are_counted_apart(alloc: Global, len: usize) -> Result<bool, NoMemory> {
    let (first, second) = two_items(alloc, len)?;
    let (first, second) = (first.as_slice(), second.as_slice());
    let rows = counts_of(alloc, Rule::Url, &[first, second, second])?.rows()?;
    Ok(rows.len() == 2 && rows[0].count == 2 && rows[0].item.as_slice() == second)
}

#[test]
fn items_of_2048_bytes_are_counted_whole(rt: HostRuntime) -> Result<(), Fail> {
    assert!(rt; are_counted_apart(rt.alloc(), 2047)?);
    Ok(())
}

// The line of the row of an item that stands so often.
fn line_of(alloc: Global, count: u64, item: &[u8]) -> Result<Bytes, NoMemory> {
    let row = Row {
        count,
        item: Bytes::copy(alloc, item)?,
    };
    row_line(alloc, &row)
}

#[test]
fn the_largest_count_has_twenty_digits(rt: HostRuntime) -> Result<(), Fail> {
    let line = line_of(rt.alloc(), 18446744073709551615, b"a\\")?;
    assert!(rt; line.as_slice() == b"n=18446744073709551615\ta\\x5C".as_slice());
    Ok(())
}
