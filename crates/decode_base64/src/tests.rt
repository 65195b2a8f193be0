use crate::{b64_text, b64_value};
use byte_kit::NoMemory;
use sbuf_nest::Look;
use std::alloc::Global;
use std::test::Fail;

// What stands ahead of a place and from it on, and the bytes and letters of the text there.
type TextRow = (&'static [u8], &'static [u8], Option<(u32, u32)>);

const TEXTS: &[TextRow] = &[
    (b"", b"aHR0cDovL2V4YW1wbGUuY29tL2hlbGx", None),
    (b"", b"aHR0cDovL2V4YW1wbGUuY29tL2hlbGxv", Some((32, 32))),
    (b"", b"aHR0cDovL2V4YW1wbGUuY29tL2hlbGxvL", Some((33, 33))),
    (b"", b"", None),
    (b"", b"\naHR0cDovL2V4YW1wbGUuY29tL2hlbGxv", None),
    (b"v", b"aHR0cDovL2V4YW1wbGUuY29tL2hlbGxv", None),
    (b"+", b"aHR0cDovL2V4YW1wbGUuY29tL2hlbGxv", None),
    (b"=", b"aHR0cDovL2V4YW1wbGUuY29tL2hlbGxv", Some((32, 32))),
    (
        b" ",
        b"aHR0cDovL2V4YW1wbGUuY29tL2hlbGxvLXdvcmxkLTE ",
        Some((43, 43)),
    ),
    (
        b"aHR0cDovL2V4YW1wbGUuY29tL2hlbGxv\n",
        b"aHR0cDovL2V4YW1wbGUuY29tL2hlbGxv",
        None,
    ),
    (
        b"aHR0cDovL2V4YW1wbGUuY29tL2hlbGxv\r\n",
        b"aHR0cDovL2V4YW1wbGUuY29tL2hlbGxv",
        None,
    ),
    (
        b"aHR0cDovL2V4YW1wbGUuY29tL2hlbGx\n",
        b"aHR0cDovL2V4YW1wbGUuY29tL2hlbGxv",
        Some((32, 32)),
    ),
    (
        b"aHR0cDovL2V4YW1wbGUuY29tL2hlbGx\r\n",
        b"aHR0cDovL2V4YW1wbGUuY29tL2hlbGxv",
        Some((32, 32)),
    ),
    (
        b" aHR0cDovL2V4YW1wbGUuY29tL2hlbGxv\n",
        b"aHR0cDovL2V4YW1wbGUuY29tL2hlbGxv",
        None,
    ),
    (
        b"=aHR0cDovL2V4YW1wbGUuY29tL2hlbGx\r\n",
        b"aHR0cDovL2V4YW1wbGUuY29tL2hlbGxv",
        Some((32, 32)),
    ),
    (
        b"aHR0cDovL2V4YW1wbGUuY29tL2hlbGxv\r",
        b"aHR0cDovL2V4YW1wbGUuY29tL2hlbGxv",
        Some((32, 32)),
    ),
    (
        b"aHR0cDovL2V4YW1wbGUuY29tL2hlbGxv\n\r",
        b"aHR0cDovL2V4YW1wbGUuY29tL2hlbGxv",
        Some((32, 32)),
    ),
    (
        b"aHR0cDovL2V4YW1wbGUuY29tL2hlbGxv\n\n",
        b"aHR0cDovL2V4YW1wbGUuY29tL2hlbGxv",
        Some((32, 32)),
    ),
    (
        b"aHR0cDovL2V4YW1wbGUuY29tL2hlbGxv=\n",
        b"aHR0cDovL2V4YW1wbGUuY29tL2hlbGxv",
        Some((32, 32)),
    ),
    (
        b"",
        b"aHR0cDovL2V4YW1wbGUuY29tL2hlbGxv\naHR0cDovL2V4YW1wbGUuY29tL2hlbGxv",
        Some((65, 64)),
    ),
    (
        b"",
        b"aHR0cDovL2V4YW1wbGUuY29tL2hlbGxv\r\naHR0cDovL2V4YW1wbGUuY29tL2hlbGxv",
        Some((66, 64)),
    ),
    (
        b"",
        b"aHR0cDovL2V4YW1wbGUuY29tL2hlbGxv\n\raHR0cDovL2V4YW1wbGUuY29tL2hlbGxv",
        Some((32, 32)),
    ),
    (
        b"",
        b"aHR0cDovL2V4YW1wbGUuY29tL2hlbGxv\raHR0cDovL2V4YW1wbGUuY29tL2hlbGxv",
        Some((32, 32)),
    ),
    (
        b"",
        b"aHR0cDovL2V4YW1wbGUuY29tL2hlbGxv\n\naHR0cDovL2V4YW1wbGUuY29tL2hlbGxv",
        Some((32, 32)),
    ),
    (b"", b"aHR0cDovL2V4YW1wbGUuY29tL2hlbGxv\nA", Some((34, 33))),
    (b"", b"aHR0cDovL2V4YW1wbGUuY29tL2hlbGxv\n", Some((32, 32))),
    (
        b"",
        b"aHR0cDovL2V4YW1wbGUuY29tL2hlbGxv\r\n=",
        Some((32, 32)),
    ),
    (
        b"",
        b"aHR0cDovL2V4YW1wbGUuY29tL2hlbGxv=\naHR0cDovL2V4YW1wbGUuY29tL2hlbGxv",
        Some((32, 32)),
    ),
    (
        b"",
        b"aHR0cDovL2V4YW1wbGUuY29tL2hlbGxv\naHR0cDovL2V4YW1wbGUuY29tL2hlbGx\naHR0cDovL2V4YW1wbGUuY29tL2hlbGxv",
        Some((64, 63)),
    ),
    (
        b"",
        b"aHR0cDovL2V4YW1wbGUuY29tL2hlbGxv\naHR0cDovL2V4YW1wbGUuY29tL2hlbGxvLXdvcmxkLTE\naHR0cDovL2V4YW1wbGUuY29tL2hlbGxvLXdvcmxkLTE",
        Some((76, 75)),
    ),
    (
        b"",
        b"aHR0cDovL2V4YW1wbGUuY29tL2hlbGxv\naHR0cDovL2V4YW1wbGUuY29tL2hlbGxv\r\nLXdvcmxkLTE\nLXdvcmxkLTE",
        Some((78, 75)),
    ),
    (
        b"",
        b"TWludXRlcyBvZiB0aGUgbWVldGluZyBvZiA0IE1heSAxOTk4LiBQcmVzZW50OiBBbGljZSBKb2hu\r\nc29uLCBCb2IgTWV5ZXIuIFRoZSBjb3BpZXMgb2YgdGhlIGxlZGdlciB3ZXJlIHNob3duLCBhbmQg\r\ndGhlIG9yaWdpbmFsIHdhcyBwdXQgYmFjayBpbnRvIGl0cyBib3gsIHNlYWxlZCBhbmQgc2lnbmU\r\nTWludXRlcyBvZiB0aGUgbWVldGluZyBvZiA0IE1heSAxOTk4LiBQcmVzZW50OiBBbGljZSBKb2hu",
        Some((231, 227)),
    ),
];

fn text_of(before: &[u8], after: &[u8]) -> Option<(u32, u32)> {
    let text = b64_text(&Look { before, after })?;
    Some((text.bytes, text.units))
}

#[test]
fn a_text_is_lines_of_one_length_and_a_last_one(rt: HostRuntime) {
    for &(before, after, want) in TEXTS {
        assert_eq!(rt; text_of(before, after), want, "at {before:?} and {after:?}");
    }
}

// Appends so many letters.
fn add_letters(text: &mut Vec<u8>, count: usize) -> Result<(), NoMemory> {
    for _ in 0..count {
        text.push(b'A')?;
    }
    Ok(())
}

// So many lines of this width, a last line, and what breaks the lines.
pub(crate) fn mail(
    alloc: Global,
    width: usize,
    count: usize,
    last: usize,
    line_break: &[u8],
) -> Result<Vec<u8>, NoMemory> {
    let mut text = Vec::new(alloc);
    for _ in 0..count {
        add_letters(&mut text, width)?;
        text.extend_from_slice(line_break)?;
    }
    add_letters(&mut text, last)?;
    Ok(text)
}

// The lines of a long text, and the bytes and letters that are taken of it.
type LongRow = (usize, usize, usize, &'static [u8], (u32, u32));

const LONG: &[LongRow] = &[
    (0, 0, 65535, b"", (65535, 65535)),
    (0, 0, 65536, b"", (65536, 65536)),
    (0, 0, 65537, b"", (65536, 65536)),
    (65536, 1, 1, b"\n", (65536, 65536)),
    (40000, 1, 40000, b"\n", (65537, 65536)),
    (32, 2048, 32, b"\r\n", (69630, 65536)),
    (76, 863, 76, b"\r\n", (67260, 65536)),
];

#[test]
fn a_text_has_at_most_65536_letters(rt: HostRuntime) -> Result<(), Fail> {
    for &(width, count, last, line_break, want) in LONG {
        let text = mail(rt.alloc(), width, count, last, line_break)?;
        assert_eq!(rt;
            text_of(b"", text.as_slice()),
            Some(want),
            "of {count} lines of {width} and {last}"
        );
    }
    Ok(())
}

// A text and its value.
type ValueRow = (&'static [u8], &'static [u8]);

const VALUES: &[ValueRow] = &[
    (
        b"aHR0cDovL2V4YW1wbGUuY29tL2hlbGxv",
        b"http://example.com/hello",
    ),
    (
        b"aHR0cDovL2V4YW1wbGUuY29tL2hlbGxvL",
        b"http://example.com/hello",
    ),
    (
        b"aHR0cDovL2V4YW1wbGUuY29tL2hlbGxvLX",
        b"http://example.com/hello-",
    ),
    (
        b"aHR0cDovL2V4YW1wbGUuY29tL2hlbGxvLZ",
        b"http://example.com/hello-",
    ),
    (
        b"aHR0cDovL2V4YW1wbGUuY29tL2hlbGxvLXd",
        b"http://example.com/hello-w",
    ),
    (
        b"aHR0cDovL2V4YW1wbGUuY29tL2hlbGxvLXf",
        b"http://example.com/hello-w",
    ),
    (
        b"aHR0cDovL2V4YW1wbGUuY29tL2hlbGxvLXdvcmxkLTE=",
        b"http://example.com/hello-world-1",
    ),
    (
        b"aHR0cDovL2V4YW1wbGUuY29tL2hlbGxv\r\nLXdvcmxkLTE=",
        b"http://example.com/hello-world-1",
    ),
    (
        b"aHR0cDovL2V4YW1wbGUuY29tL2hlbGxv\nLXdvcmxkLTE\nLXdvcmxkLTE",
        b"http://example.com/hello-world-1",
    ),
    (
        b"aHR0cDovL2V4YW1wbGUuY29tL2hlbGxv\n\rLXdvcmxkLTE",
        b"http://example.com/hello",
    ),
    (
        b"ABCDEFGHIJKLMNOPQRSTUVWXYZabcdefghijklmnopqrstuvwxyz0123456789+/",
        b"\x00\x10\x83\x10Q\x87 \x92\x8b0\xd3\x8fA\x14\x93QU\x97a\x96\x9bq\xd7\x9f\x82\x18\xa3\x92Y\xa7\xa2\x9a\xab\xb2\xdb\xaf\xc3\x1c\xb3\xd3]\xb7\xe3\x9e\xbb\xf3\xdf\xbf",
    ),
    (
        b"TWludXRlcyBvZiB0aGUgbWVldGluZyBvZiA0IE1heSAxOTk4LiBQcmVzZW50OiBBbGljZSBKb2hu\r\nc29uLCBCb2IgTWV5ZXIuIFRoZSBjb3BpZXMgb2YgdGhlIGxlZGdlciB3ZXJlIHNob3duLCBhbmQg\r\ndGhlIG9yaWdpbmFsIHdhcyBwdXQgYmFjayBpbnRvIGl0cyBib3gsIHNlYWxlZCBhbmQgc2lnbmU\r\nTWludXRlcyBvZiB0aGUgbWVldGluZyBvZiA0IE1heSAxOTk4LiBQcmVzZW50OiBBbGljZSBKb2hu",
        b"Minutes of the meeting of 4 May 1998. Present: Alice Johnson, Bob Meyer. The copies of the ledger were shown, and the original was put back into its box, sealed and signe",
    ),
    (
        b"TWludXRlcyBvZiB0aGUgbWVldGluZyBvZiA0IE1heSAxOTk4LiBQcmVzZW50OiBBbGljZSBKb2hu\nc29uLCBCb2IgTWV5ZXIuIFRoZSBjb3BpZXMgb2YgdGhlIGxlZGdlciB3ZXJlIHNob3duLCBhbmQg\ncw==",
        b"Minutes of the meeting of 4 May 1998. Present: Alice Johnson, Bob Meyer. The copies of the ledger were shown, and s",
    ),
];

// Puts the value of the text in front in place of what `into` has, if there is a text.
fn value_into(after: &[u8], into: &mut Vec<u8>) -> Result<bool, NoMemory> {
    let Some(extent) = b64_text(&Look { before: b"", after }) else {
        return Ok(false);
    };
    b64_value(after, extent, into)?;
    Ok(true)
}

#[test]
fn a_value_is_six_bits_a_letter(rt: HostRuntime) -> Result<(), Fail> {
    let mut value = Vec::from_slice(rt.alloc(), b"what stood there")?;
    for &(text, want) in VALUES {
        assert!(rt; value_into(text, &mut value)?, "no text: {text:?}");
        assert!(rt; value.as_slice() == want, "of {text:?}");
    }
    Ok(())
}
