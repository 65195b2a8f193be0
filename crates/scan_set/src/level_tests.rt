// How deep buffers within buffers are searched, and in which order.
use crate::nesting_tests::{
    BASE64, Case, DECODERS, HEX, Row, URLS, WORD, failing, make_tools, makes,
};
use byte_kit::NoMemory;
use forensic_path::Kind::{Domain, Url, Word};
use sbuf_nest::Sbuf;
use std::alloc::Global;
use std::test::Fail;

// The hexadecimal digits of `aHR0cDovL2V4YW1wbGUuY29tL2hlbGxvLXdvcmxkLTE=`, each byte XORed with 255.
const HIDDEN: &[u8] =
    b"\xc9\xce\xcb\xc7\xca\xcd\xcc\xcf\xc9\xcc\xcb\xcb\xc9\x99\xc8\xc9\xcb\x9c\xcc\xcd\xca\xc9\xcc\xcb\xca\xc6\xca\xc8\xcc\xce\xc8\xc8\xc9\xcd\xcb\xc8\xca\xca\xc8\xca\xca\xc6\xcc\xcd\xcc\xc6\xc8\xcb\xcb\x9c\xcc\xcd\xc9\xc7\xc9\x9c\xc9\xcd\xcb\xc8\xc8\xc7\xc8\xc9\xcb\x9c\xca\xc7\xc9\xcb\xc8\xc9\xc9\xcc\xc9\x9b\xc8\xc7\xc9\x9d\xcb\x9c\xca\xcb\xcb\xca\xcc\x9b";

const VIEWED: &[Case] = &[
    (
        (URLS | DECODERS, 3, 255, 0),
        0,
        HIDDEN,
        &[
            (
                Url,
                "0-XOR255-0-HEX-0-BASE64-0",
                "http://example.com/hello-world-1",
            ),
            (Domain, "0-XOR255-0-HEX-0-BASE64-7", "example.com"),
        ],
        &[],
    ),
    ((URLS | DECODERS, 2, 255, 0), 0, HIDDEN, &[], &[]),
    (
        (URLS | DECODERS, 3, 255, 0),
        0,
        b"see http://example.com/a b",
        &[
            (Url, "4", "http://example.com/a"),
            (Domain, "11", "example.com"),
        ],
        &[],
    ),
    (
        (URLS | DECODERS, 1, 255, 2),
        0,
        b"\x9e\xdf\x97\x8b\x8b\x8f\xc5\xd0\xd0\x9e\xd1\x9d\xd0\xdf\x9d",
        &[
            (Url, "2-XOR255-0", "http://a.b/"),
            (Domain, "9-XOR255-0", "a.b"),
        ],
        &["a http://a.b/ b", "//a.b/ "],
    ),
];

#[test]
fn a_view_is_taken_once_on_a_way(rt: HostRuntime) -> Result<(), Fail> {
    assert_eq!(rt; failing(rt.alloc(), VIEWED)?, None);
    Ok(())
}

// As Base64 `kMyoMysMy` and bytes of no word, as hexadecimal six bytes of no word and `strawberry`.
const BOTH: &[u8] = b"a015b015c01573747261776265727279";

const ORDERED: &[Case] = &[
    (
        (WORD | DECODERS, 1, 0, 0),
        0,
        BOTH,
        &[
            (Word, "0", "a015b015c01573747261776265727279"),
            (Word, "0-BASE64-0", "kMyoMysMy"),
            (Word, "0-HEX-6", "strawberry"),
        ],
        &[],
    ),
    (
        (WORD | DECODERS, 2, 1, 0),
        0,
        BOTH,
        &[
            (Word, "0", "a015b015c01573747261776265727279"),
            (Word, "0-BASE64-0", "kMyoMysMy"),
            (Word, "0-BASE64-0-XOR1-0", "jLxnLxrLx"),
            (Word, "0-HEX-6", "strawberry"),
            (Word, "0-HEX-6-XOR1-0", "rus`vcdssx"),
            (Word, "0-XOR1-0", "`104c104b10462656370667374636368"),
        ],
        &[],
    ),
    (
        (URLS | WORD | DECODERS, 1, 1, 0),
        0,
        b"aHR0cDovL2V4YW1wbGUuY29tL2hlbGxv",
        &[
            (Word, "0", "aHR0cDovL2V4YW1wbGUuY29tL2hlbGxv"),
            (Url, "0-BASE64-0", "http://example.com/hello"),
            (Word, "0-BASE64-0", "http://example.com/hello"),
            (Domain, "0-BASE64-7", "example.com"),
            (Word, "0-XOR1-0", "`IS1bEnwM3W5XV0vcFTtX38uM3imcFyw"),
        ],
        &[],
    ),
    (
        (WORD | BASE64, 1, 0, 0),
        0,
        BOTH,
        &[
            (Word, "0", "a015b015c01573747261776265727279"),
            (Word, "0-BASE64-0", "kMyoMysMy"),
        ],
        &[],
    ),
];

#[test]
fn a_place_has_its_own_features_ahead_of_the_decoded_ones_and_of_its_view(
    rt: HostRuntime,
) -> Result<(), Fail> {
    assert_eq!(rt; failing(rt.alloc(), ORDERED)?, None);
    Ok(())
}

const DIGIT: [u8; 16] = *b"0123456789abcdef";

// The hexadecimal digits of bytes.
fn digits_of(alloc: Global, bytes: &[u8]) -> Result<Vec<u8>, NoMemory> {
    let mut text = Vec::new(alloc);
    for byte in bytes {
        text.push(DIGIT[(byte / 16) as usize])?;
        text.push(DIGIT[(byte % 16) as usize])?;
    }
    Ok(text)
}

// How deep, and the features of `http://abc.com/x` as hexadecimal digits seven times over.
const DEEP: &[(u8, &[Row])] = &[
    (
        7,
        &[(
            Url,
            "0-HEX-0-HEX-0-HEX-0-HEX-0-HEX-0-HEX-0-HEX-0",
            "http://abc.com/x",
        )],
    ),
    (6, &[]),
    (0, &[]),
];

#[test]
fn a_text_of_a_text_is_searched_as_deep_as_the_plan_says(rt: HostRuntime) -> Result<(), Fail> {
    let mut tools = make_tools(rt.alloc())?;
    let mut text = Vec::from_slice(rt.alloc(), b"http://abc.com/x")?;
    for _ in 0..7 {
        text = digits_of(rt.alloc(), text.as_slice())?;
    }
    let sb = Sbuf::child(text.as_slice());
    for &(depth, want) in DEEP {
        let asked = (1 | HEX, depth, 0, 0);
        let made = makes(rt.alloc(), &mut tools, &sb, asked, want, &[])?;
        assert!(rt; made, "{depth} deep");
    }
    Ok(())
}
