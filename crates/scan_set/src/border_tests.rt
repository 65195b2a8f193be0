// Nested buffers whose texts lie across the borders of blocks and of what a buffer owns.
use crate::nesting_tests::{
    Case, DECODERS, DIGITS, HELLO, ONE_DEEP, PAIRS, Row, URLS, failing, make_tools, makes,
};
use forensic_path::Kind::{Domain, Url};
use sbuf_nest::Sbuf;
use std::test::Fail;

// A block has 16,384 places, so 65,536 is a border of two.
const ACROSS: &[Case] = &[
    (
        ONE_DEEP,
        65520,
        HELLO,
        &[
            (Url, "65520-BASE64-0", "http://example.com/hello-world-1"),
            (Domain, "65520-BASE64-7", "example.com"),
        ],
        &[],
    ),
    (
        ONE_DEEP,
        65536,
        HELLO,
        &[
            (Url, "65536-BASE64-0", "http://example.com/hello-world-1"),
            (Domain, "65536-BASE64-7", "example.com"),
        ],
        &[],
    ),
    (
        ONE_DEEP,
        65505,
        DIGITS,
        &[
            (Url, "65505-HEX-0", "http://abc.com/x"),
            (Domain, "65505-HEX-7", "abc.com"),
        ],
        &[],
    ),
    (
        ONE_DEEP,
        65535,
        PAIRS,
        &[
            (Url, "65535-UTF16-0", "http://a.b/"),
            (Domain, "65535-UTF16-7", "a.b"),
        ],
        &[],
    ),
    (
        (URLS | DECODERS, 1, 255, 0),
        65530,
        b"\x97\x8b\x8b\x8f\xc5\xd0\xd0\x9e\xd1\x9d\xd0",
        &[
            (Url, "65530-XOR255-0", "http://a.b/"),
            (Domain, "65537-XOR255-0", "a.b"),
        ],
        &[],
    ),
    (
        (URLS | DECODERS, 2, 255, 0),
        65530,
        b"\xc9\xc7\xc8\xcb\xc8\xcb\xc8\xcf\xcc\x9e\xcd\x99\xcd\x99\xc9\xce\xc9\xcd\xc9\xcc\xcd\x9a\xc9\xcc\xc9\x99\xc9\x9b\xcd\x99\xc8\xc7",
        &[
            (Url, "65530-XOR255-0-HEX-0", "http://abc.com/x"),
            (Domain, "65530-XOR255-0-HEX-7", "abc.com"),
        ],
        &[],
    ),
];

#[test]
fn a_text_across_a_border_of_blocks_is_decoded_once(rt: HostRuntime) -> Result<(), Fail> {
    assert_eq!(rt; failing(rt.alloc(), ACROSS)?, None);
    Ok(())
}

// A buffer, which of its places are owned, the mask of the view, and the features.
type OwnedCase = (&'static [u8], (usize, usize), u8, &'static [Row]);

// Texts behind two bytes, in a buffer that stands at 1000.
const OWNED: &[OwnedCase] = &[
    (
        b"a aHR0cDovL2V4YW1wbGUuY29tL2hlbGxvLXdvcmxkLTE= b",
        (2, 3),
        0,
        &[
            (Url, "1002-BASE64-0", "http://example.com/hello-world-1"),
            (Domain, "1002-BASE64-7", "example.com"),
        ],
    ),
    (
        b"a aHR0cDovL2V4YW1wbGUuY29tL2hlbGxvLXdvcmxkLTE= b",
        (3, 48),
        0,
        &[],
    ),
    (
        b"a aHR0cDovL2V4YW1wbGUuY29tL2hlbGxvLXdvcmxkLTE= b",
        (0, 2),
        0,
        &[],
    ),
    (
        b"a h\0t\0t\0p\0:\0/\0/\0a\0.\0b\0/\0",
        (0, 24),
        0,
        &[
            (Url, "1002-UTF16-0", "http://a.b/"),
            (Domain, "1002-UTF16-7", "a.b"),
        ],
    ),
    (b"a h\0t\0t\0p\0:\0/\0/\0a\0.\0b\0/\0", (4, 24), 0, &[]),
    (
        b"a \x97\x8b\x8b\x8f\xc5\xd0\xd0\x9e\xd1\x9d\xd0",
        (0, 13),
        255,
        &[
            (Url, "1002-XOR255-0", "http://a.b/"),
            (Domain, "1009-XOR255-0", "a.b"),
        ],
    ),
    (
        b"a \x97\x8b\x8b\x8f\xc5\xd0\xd0\x9e\xd1\x9d\xd0",
        (2, 3),
        255,
        &[(Url, "1002-XOR255-0", "http://a.b/")],
    ),
    (
        b"a \x97\x8b\x8b\x8f\xc5\xd0\xd0\x9e\xd1\x9d\xd0",
        (3, 13),
        255,
        &[(Domain, "1009-XOR255-0", "a.b")],
    ),
];

#[test]
fn a_text_is_decoded_where_its_first_place_is_owned(rt: HostRuntime) -> Result<(), Fail> {
    let mut tools = make_tools(rt.alloc())?;
    for &(bytes, (from, to), mask, want) in OWNED {
        if from <= to && to <= bytes.len() && bytes.len() < 1024 {
            let sb = Sbuf::of(bytes, from, to, 1000);
            let asked = (URLS | DECODERS, 1, mask, 0);
            let made = makes(rt.alloc(), &mut tools, &sb, asked, want, &[])?;
            assert!(rt; made, "from {from} to {to}");
        }
    }
    Ok(())
}
