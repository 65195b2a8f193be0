use crate::{Line, file_name, header_of, is_written, line_into, line_of, read_line, stands_in};
use byte_kit::{Bytes, NoMemory};
use forensic_path::{Class, Classed, Decoder, Feature, Kind, Path, Step, Steps};
use std::alloc::Global;
use std::test::Fail;

// A path at a place of the image, with some hexadecimal steps.
fn path(alloc: Global, top: u64, steps: u64) -> Result<Path, NoMemory> {
    let mut list = Steps::make(alloc);
    for _ in 0..steps {
        list.add(Step {
            by: Decoder::Hex,
            at: 0,
        })?;
    }
    Ok(Path { top, steps: list })
}

// The names of the files 0 to 39, empty where there is none.
static NAMES: [&str; 40] = [
    "spool.bin",
    "url.txt",
    "domain.txt",
    "ip.txt",
    "ether.txt",
    "exec.txt",
    "unread.txt",
    "find.txt",
    "wordlist.txt",
    "alerts.txt",
    "",
    "url_stopped.txt",
    "domain_stopped.txt",
    "ip_stopped.txt",
    "ether_stopped.txt",
    "exec_stopped.txt",
    "unread_stopped.txt",
    "find_stopped.txt",
    "wordlist_stopped.txt",
    "",
    "",
    "url_histogram.txt",
    "url_services_histogram.txt",
    "domain_histogram.txt",
    "ip_histogram.txt",
    "ether_histogram.txt",
    "find_histogram.txt",
    "",
    "",
    "",
    "",
    "",
    "",
    "",
    "",
    "",
    "",
    "",
    "",
    "",
];

#[test]
fn files_have_these_names(rt: HostRuntime) {
    for number in 0..40u32 {
        let name = file_name(number).unwrap_or("");
        assert_eq!(rt; name, NAMES[number as usize]);
    }
}

// A domain on the alert list.
fn alert(alloc: Global) -> Result<Classed, NoMemory> {
    let item = Feature {
        kind: Kind::Domain,
        path: path(alloc, 11, 0)?,
        feature: Bytes::copy(alloc, b"a.b")?,
        context: Bytes::copy(alloc, b"//a.b/\t")?,
    };
    Ok(Classed {
        class: Class::Alert,
        item,
    })
}

// Whether a domain on the alert list has a line in the file.
fn has_alert(alloc: Global, file: u32) -> Result<bool, NoMemory> {
    let alert = alert(alloc)?;
    Ok(stands_in(file, &alert))
}

#[test]
fn an_alert_stands_in_the_file_of_its_kind_and_in_that_of_alerts(
    rt: HostRuntime,
) -> Result<(), Fail> {
    for (file, stands) in [(2, true), (9, true), (12, false)] {
        assert!(rt; has_alert(rt.alloc(), file)? == stands, "in {file}");
    }
    Ok(())
}

// Files that are written by these scanners, and their headers.
const HEADERS: &[(u32, &str)] = &[
    (
        12,
        "# triage feature file, format 1\n# file: domain_stopped.txt\n# columns: path, feature, context\n",
    ),
    (
        23,
        "# triage histogram, format 1\n# file: domain_histogram.txt\n",
    ),
];

// The file is written where the domains are searched for, and not without that, and has this header.
fn has_header(alloc: Global, file: u32, text: &str) -> Result<bool, NoMemory> {
    if is_written(file, 0x03bd) || !is_written(file, 0x03bf) {
        return Ok(false);
    }
    Ok(header_of(alloc, file)?.as_slice() == text.as_bytes())
}

#[test]
fn a_file_of_domains_has_its_header(rt: HostRuntime) -> Result<(), Fail> {
    for (file, text) in HEADERS {
        assert!(rt; has_header(rt.alloc(), *file, text)?, "of {file}");
    }
    Ok(())
}

// Appends the line of a feature.
fn append(found: &Feature, text: &mut Vec<u8>) -> Result<(), NoMemory> {
    line_into(
        &found.path,
        found.feature.as_slice(),
        found.context.as_slice(),
        text,
    )
}

// The text with the line of a domain behind it.
fn with_alert(alloc: Global, text: &[u8]) -> Result<Vec<u8>, NoMemory> {
    let alert = alert(alloc)?;
    let mut text = Vec::from_slice(alloc, text)?;
    append(&alert.item, &mut text)?;
    Ok(text)
}

#[test]
fn a_line_is_appended(rt: HostRuntime) -> Result<(), Fail> {
    let text = with_alert(rt.alloc(), b"\n")?;
    assert!(rt; text.as_slice() == b"\n11\ta.b\t//a.b/\\x09".as_slice());
    Ok(())
}

// What a line is made of, and the line.
struct Row {
    top: u64,
    steps: u64,
    feature: &'static [u8],
    context: &'static [u8],
    line: &'static [u8],
}

const ROWS: &[Row] = &[
    Row {
        top: 4,
        steps: 0,
        feature: b"http://a.b",
        context: b"see http://a.b",
        line: b"4\thttp://a.b\tsee http://a.b",
    },
    Row {
        top: 7,
        steps: 1,
        feature: b"a\\b",
        context: b"\ta\\b\n\xc8",
        line: b"7-HEX-0\ta\\x5Cb\t\\x09a\\x5Cb\\x0A\\xC8",
    },
    Row {
        top: 7,
        steps: 1,
        feature: b"a\\b",
        context: b"\x00a\\b\xff",
        line: b"7-HEX-0\ta\\x5Cb\t\\x00a\\x5Cb\\xFF",
    },
    Row {
        top: 0,
        steps: 7,
        feature: b"a",
        context: b"",
        line: b"0-HEX-0-HEX-0-HEX-0-HEX-0-HEX-0-HEX-0-HEX-0\ta\t",
    },
];

// The line is written of the path, the feature and the context.
fn is_written_so(alloc: Global, row: &Row) -> Result<bool, NoMemory> {
    let path = path(alloc, row.top, row.steps)?;
    Ok(line_of(alloc, &path, row.feature, row.context)?.as_slice() == row.line)
}

// The path, the feature and the context are those of the row.
fn is_of(read: &Line, row: &Row) -> bool {
    read.path.top == row.top
        && read.path.steps.items().len() as u64 == row.steps
        && read.feature.as_slice() == row.feature
        && read.context.as_slice() == row.context
}

// The line is read back as the path, the feature and the context.
fn is_read_so(alloc: Global, row: &Row) -> Result<bool, NoMemory> {
    match read_line(alloc, row.line)? {
        Some(read) => Ok(is_of(&read, row)),
        None => Ok(false),
    }
}

#[test]
fn what_is_written_is_read_back(rt: HostRuntime) -> Result<(), Fail> {
    for row in ROWS {
        assert!(rt; is_written_so(rt.alloc(), row)?, "to {:?}", row.line);
        assert!(rt; is_read_so(rt.alloc(), row)?, "from {:?}", row.line);
    }
    Ok(())
}

// Texts of other forms.
const OTHERS: &[&[u8]] = &[
    b"",
    b"x",
    b"# triage feature file, format 1",
    b"4\ta",
    b"4\ta\ta\r",
    b"4\ta\ta\t\t",
    b"4\ta\t\\x61",
    b"04\ta\ta",
    b"0-HEX-0-HEX-0-HEX-0-HEX-0-HEX-0-HEX-0-HEX-0-HEX-0\ta\ta",
];

// The text is a line.
fn is_line(alloc: Global, text: &[u8]) -> Result<bool, NoMemory> {
    Ok(read_line(alloc, text)?.is_some())
}

#[test]
fn other_texts_are_no_lines(rt: HostRuntime) -> Result<(), Fail> {
    for text in OTHERS {
        assert!(rt; !is_line(rt.alloc(), text)?, "from {text:?}");
    }
    Ok(())
}
