// What scans that are done leave and print.
use super::{MemOutcome, scan};
use crate::Status;
use byte_kit::NoMemory;
use host_disk::MemDisk;
use std::alloc::Global;
use std::test::Fail;

const URL_HEADER: &str =
    "# triage feature file, format 1\n# file: url.txt\n# columns: path, feature, context\n";

const DOMAIN_HEADER: &str =
    "# triage feature file, format 1\n# file: domain.txt\n# columns: path, feature, context\n";

// The file of this number has this front, and behind it these lines and nothing else.
fn has(disk: &MemDisk, file: u32, front: &str, lines: &str) -> bool {
    if file >= 64 {
        return false;
    }
    match disk.file(file).strip_prefix(front.as_bytes()) {
        Some(behind) => behind == lines.as_bytes(),
        None => false,
    }
}

// An image, the lines of its URLs and of its domains, and the text.
const ROWS: &[(&str, &str, &str, &str)] = &[
    ("", "", "", "done pages=0 features=0\n"),
    (
        "see http://example.com/a b",
        "4\thttp://example.com/a\tsee http://example.com/a b\n",
        "11\texample.com\tsee http://example.com/a b\n",
        "done pages=1 features=2\nurl.txt 1\ndomain.txt 1\n",
    ),
    (
        "http://a.b/?u=http://c.d/",
        "0\thttp://a.b/?u=http://c.d/\thttp://a.b/?u=http://c.d/\n14\thttp://c.d/\thttp://a.b/?u=http://c.d/\n",
        "7\ta.b\thttp://a.b/?u=http://c.d/\n21\tc.d\t//a.b/?u=http://c.d/\n",
        "done pages=1 features=4\nurl.txt 2\ndomain.txt 2\n",
    ),
    ("x ftp://", "", "", "done pages=1 features=0\n"),
    (
        "                                                                                                    aHR0cDovL2V4YW1wbGUuY29tL2hlbGxvLXdvcmxkLTE=",
        "100-BASE64-0\thttp://example.com/hello-world-1\thttp://example.com/hello-world-1\n",
        "100-BASE64-7\texample.com\thttp://example.com/hello-world-1\n",
        "done pages=1 features=2\nurl.txt 1\ndomain.txt 1\n",
    ),
    (
        "aHR0cDovL2V4YW1wbGUuY29tL2hlbGxv\r\nLXdvcmxkLTE=",
        "0-BASE64-0\thttp://example.com/hello-world-1\thttp://example.com/hello-world-1\n",
        "0-BASE64-7\texample.com\thttp://example.com/hello-world-1\n",
        "done pages=1 features=2\nurl.txt 1\ndomain.txt 1\n",
    ),
    (
        "aHR0cDovL2V4YW1wbGUuY29tL2hlbGx",
        "",
        "",
        "done pages=1 features=0\n",
    ),
    ("HTTPS://X", "0\tHTTPS://X\tHTTPS://X\n", "", ONE_URL),
    (
        "http://jo.doe@h.org/",
        "0\thttp://jo.doe@h.org/\thttp://jo.doe@h.org/\n",
        "",
        ONE_URL,
    ),
    (
        "http://a.b...:80/",
        "0\thttp://a.b...:80/\thttp://a.b...:80/\n",
        "7\ta.b\thttp://a.b...:80/\n",
        "done pages=1 features=2\nurl.txt 1\ndomain.txt 1\n",
    ),
    (
        "\tftp://a\0\\",
        "1\tftp://a\t\\x09ftp://a\\x00\\x5C\n",
        "",
        ONE_URL,
    ),
    (
        "at the end: ftp://z.y",
        "12\tftp://z.y\tat the end: ftp://z.y\n",
        "18\tz.y\t the end: ftp://z.y\n",
        "done pages=1 features=2\nurl.txt 1\ndomain.txt 1\n",
    ),
];

// The text of a page with one URL and no domain.
const ONE_URL: &str = "done pages=1 features=1\nurl.txt 1\n";

// The scan is done, and has put this text.
fn is_done(outcome: &MemOutcome, text: &str) -> bool {
    outcome.status == Status::Done && outcome.out.bytes() == text.as_bytes()
}

// The files of URLs and of domains have these lines.
pub(super) fn holds(disk: &MemDisk, urls: &str, domains: &str) -> bool {
    has(disk, 1, URL_HEADER, urls) && has(disk, 2, DOMAIN_HEADER, domains)
}

// The scan of the image is done, and leaves these lines and this text.
fn leaves(
    alloc: Global,
    image: &str,
    urls: &str,
    domains: &str,
    text: &str,
) -> Result<bool, NoMemory> {
    let outcome = scan(alloc, image.as_bytes(), &[], &[])?;
    Ok(is_done(&outcome, text) && holds(&outcome.disk, urls, domains))
}

#[test]
fn each_url_and_each_domain_has_a_line_at_its_place(rt: HostRuntime) -> Result<(), Fail> {
    for (image, urls, domains, text) in ROWS {
        assert!(rt;
            leaves(rt.alloc(), image, urls, domains, text)?,
            "at {image}"
        );
    }
    Ok(())
}

// How each feature file begins.
const FRONT: &str = "# triage feature file, format 1\n# file: ";

// An image, the number of a report file, what stands in it behind its name, and the text.
const OTHER_ROWS: &[(&[u8], u32, &str, &str)] = &[
    (
        b"\x45\x00\x00\x73\x00\x00\x40\x00\x40\x11\xb8\x61\xc0\xa8\x00\x01\xc0\xa8\x00\xc7",
        3,
        "ip.txt\n# columns: path, feature, context\n0\t192.168.0.1\tE\\x00\\x00s\\x00\\x00@\\x00@\\x11\\xB8a\\xC0\\xA8\\x00\\x01\\xC0\\xA8\\x00\\xC7\n0\t192.168.0.199\tE\\x00\\x00s\\x00\\x00@\\x00@\\x11\\xB8a\\xC0\\xA8\\x00\\x01\\xC0\\xA8\\x00\\xC7\n",
        "done pages=1 features=2\nip.txt 2\n",
    ),
    (
        b"\x7f\x45\x4c\x46\x02\x01\x01\x00\x00\x00\x00\x00\x00\x00\x00\x00\x02\x00\x3e\x00",
        5,
        "exec.txt\n# columns: path, feature, context\n0\tELF class=64 order=little type=2 machine=62\t\\x7FELF\\x02\\x01\\x01\\x00\\x00\\x00\\x00\\x00\\x00\\x00\\x00\\x00\\x02\\x00>\\x00\n",
        "done pages=1 features=1\nexec.txt 1\n",
    ),
    (
        b"\x1f\x8b\x08\x50\x4b\x03\x04",
        6,
        "unread.txt\n# columns: path, feature, context\n0\tgzip\t\\x1F\\x8B\\x08PK\\x03\\x04\n3\tzip\t\\x1F\\x8B\\x08PK\\x03\\x04\n",
        "done pages=1 features=2\nunread.txt 2\n",
    ),
];

// The scan of the image is done, and leaves these lines in this file and this text.
fn leaves_in(
    alloc: Global,
    image: &[u8],
    file: u32,
    lines: &str,
    text: &str,
) -> Result<bool, NoMemory> {
    let outcome = scan(alloc, image, &[], &[])?;
    Ok(is_done(&outcome, text) && has(&outcome.disk, file, FRONT, lines))
}

#[test]
fn packets_executables_and_members_have_their_files(rt: HostRuntime) -> Result<(), Fail> {
    for (image, file, lines, text) in OTHER_ROWS {
        assert!(rt;
            leaves_in(rt.alloc(), image, *file, lines, text)?,
            "of {file}"
        );
    }
    Ok(())
}

// How many lines end in the file.
fn lines_of(file: &[u8]) -> u64 {
    let mut lines = 0u64;
    for byte in file {
        if *byte == b'\n' {
            lines = lines.saturating_add(1);
        }
    }
    lines
}

// The disk holds as many lines of URLs as the largest image has short ones, in 7 MiB, and no domain.
fn is_full(disk: &MemDisk) -> bool {
    let urls = disk.file(1);
    lines_of(urls) == 3 + 131_072 && urls.len() == 7_201_178 && has(disk, 2, DOMAIN_HEADER, "")
}

// So many times a short URL and a space.
fn full_of_urls(alloc: Global, count: usize) -> Result<Vec<u8>, NoMemory> {
    let mut image = Vec::new(alloc);
    for _ in 0..count {
        image.extend_from_slice(b"ftp://a ")?;
    }
    Ok(image)
}

#[test]
fn an_image_may_be_full_of_urls(rt: HostRuntime) -> Result<(), Fail> {
    let image = full_of_urls(rt.alloc(), 131_072)?;
    let outcome = scan(rt.alloc(), image.as_slice(), &[], &[])?;
    let text = "done pages=1 features=131072\nurl.txt 131072\n";
    assert!(rt; is_done(&outcome, text) && is_full(&outcome.disk));
    Ok(())
}
