// Where Base64 texts begin in a buffer.
use crate::find_texts;
use crate::tests::mail;
use byte_kit::NoMemory;
use forensic_path::Decoder;
use sbuf_nest::{Extent, Sbuf, Start, Starts};
use std::alloc::Global;
use std::test::Fail;

// The texts that begin at owned places of a buffer, whose places from `from` up to `to` are owned, are
// these: their places, bytes and letters.
fn are_texts(
    sb: (&[u8], usize, usize),
    want: &[(usize, u32, u32)],
    alloc: Global,
) -> Result<bool, NoMemory> {
    let (bytes, from, to) = sb;
    if from > to || to > bytes.len() {
        return Ok(false);
    }
    let mut starts = Starts::make(alloc);
    find_texts(&Sbuf::of(bytes, from, to, 0), &mut starts)?;
    let found = starts.items();
    Ok(
        found.len() == want.len()
            && found.iter().zip(want.iter()).all(|(start, text)| {
                *start
                    == Start {
                        at: text.0,
                        by: Decoder::Base64,
                        extent: Extent {
                            bytes: text.1,
                            units: text.2,
                        },
                    }
            }),
    )
}

// A buffer, which of its places are owned, and the texts.
type FindRow = (&'static [u8], usize, usize, &'static [(usize, u32, u32)]);

const BUFFERS: &[FindRow] = &[
    (
        b"aHR0cDovL2V4YW1wbGUuY29tL2hlbGxvLXdvcmxkLTE",
        0,
        43,
        &[(0, 43, 43)],
    ),
    (b"", 0, 0, &[]),
    (b"aHR0cDovL2V4YW1wbGUuY29tL2hlbGx", 0, 31, &[]),
    (b" aHR0cDovL2V4YW1wbGUuY29tL2hlbGxv", 0, 33, &[(1, 32, 32)]),
    (
        b"To: aHR0cDovL2V4YW1wbGUuY29tL2hlbGxvLXdvcmxkLTE=\n\naHR0cDovL2V4YW1wbGUuY29tL2hlbGxv\r\naHR0cDovL2V4YW1wbGUuY29tL2hlbGxv\r\nLXdvcmxkLTE\n",
        0,
        130,
        &[(4, 43, 43), (50, 79, 75)],
    ),
    (
        b"To: aHR0cDovL2V4YW1wbGUuY29tL2hlbGxvLXdvcmxkLTE=\n\naHR0cDovL2V4YW1wbGUuY29tL2hlbGxv\r\naHR0cDovL2V4YW1wbGUuY29tL2hlbGxv\r\nLXdvcmxkLTE\n",
        4,
        5,
        &[(4, 43, 43)],
    ),
    (
        b"To: aHR0cDovL2V4YW1wbGUuY29tL2hlbGxvLXdvcmxkLTE=\n\naHR0cDovL2V4YW1wbGUuY29tL2hlbGxv\r\naHR0cDovL2V4YW1wbGUuY29tL2hlbGxv\r\nLXdvcmxkLTE\n",
        5,
        50,
        &[],
    ),
    (
        b"To: aHR0cDovL2V4YW1wbGUuY29tL2hlbGxvLXdvcmxkLTE=\n\naHR0cDovL2V4YW1wbGUuY29tL2hlbGxv\r\naHR0cDovL2V4YW1wbGUuY29tL2hlbGxv\r\nLXdvcmxkLTE\n",
        5,
        51,
        &[(50, 79, 75)],
    ),
    (
        b"To: aHR0cDovL2V4YW1wbGUuY29tL2hlbGxvLXdvcmxkLTE=\n\naHR0cDovL2V4YW1wbGUuY29tL2hlbGxv\r\naHR0cDovL2V4YW1wbGUuY29tL2hlbGxv\r\nLXdvcmxkLTE\n",
        51,
        130,
        &[],
    ),
    (
        b"To: aHR0cDovL2V4YW1wbGUuY29tL2hlbGxvLXdvcmxkLTE=\n\naHR0cDovL2V4YW1wbGUuY29tL2hlbGxv\r\naHR0cDovL2V4YW1wbGUuY29tL2hlbGxv\r\nLXdvcmxkLTE\n",
        0,
        4,
        &[],
    ),
    (
        b"aHR0cDovL2V4YW1wbGUuY29tL2hlbGx\naHR0cDovL2V4YW1wbGUuY29tL2hlbGxv\naHR0cDovL2V4YW1wbGUuY29tL2hlbGx\naHR0cDovL2V4YW1wbGUuY29tL2hlbGxv",
        0,
        129,
        &[(32, 64, 63), (97, 32, 32)],
    ),
    (
        b"aHR0cDovL2V4YW1wbGUuY29tL2hlbGxv=aHR0cDovL2V4YW1wbGUuY29tL2hlbGxv\naHR0cDovL2V4YW1wbGUuY29tL2hlbGxv",
        0,
        98,
        &[(0, 32, 32), (33, 65, 64)],
    ),
];

#[test]
fn the_texts_of_the_owned_places_are_found(rt: HostRuntime) -> Result<(), Fail> {
    for &(bytes, from, to, want) in BUFFERS {
        assert!(rt;
            are_texts((bytes, from, to), want, rt.alloc())?,
            "in {bytes:?} from {from} to {to}"
        );
    }
    Ok(())
}

// The lines of a long buffer, and the texts that begin in it.
type MailRow = (
    usize,
    usize,
    usize,
    &'static [u8],
    &'static [(usize, u32, u32)],
);

const MAILS: &[MailRow] = &[
    (0, 0, 140000, b"", &[(0, 65536, 65536)]),
    (32, 4500, 7, b"\r\n", &[(0, 69630, 65536)]),
    (31, 300, 32, b"\n", &[(9600, 32, 32)]),
];

#[test]
fn a_long_text_is_one_start(rt: HostRuntime) -> Result<(), Fail> {
    for &(width, count, last, line_break, want) in MAILS {
        let bytes = mail(rt.alloc(), width, count, last, line_break)?;
        let len = bytes.len();
        assert!(rt;
            are_texts((bytes.as_slice(), 0, len), want, rt.alloc())?,
            "in {count} lines of {width} and {last}"
        );
    }
    Ok(())
}
