use crate::{
    Bytes, Calls, Name, Names, NoMemory, Texts, be16_at, be32_at, dec_into, dec_read, dec_write,
    is_base64, is_digit, is_hex, is_host, is_letter, is_printable, is_url, is_word, le16_at,
    le32_at, le64_at, put_le16, put_le32, put_le64,
};
use std::alloc::Global;
use std::test::Fail;

// The classes of bytes.
#[derive(Clone, Copy)]
enum Class {
    Letter,
    Digit,
    Url,
    Host,
    Base64,
    Hex,
    Word,
    Printable,
}

fn is_of(class: Class, byte: u8) -> bool {
    match class {
        Class::Letter => is_letter(byte),
        Class::Digit => is_digit(byte),
        Class::Url => is_url(byte),
        Class::Host => is_host(byte),
        Class::Base64 => is_base64(byte),
        Class::Hex => is_hex(byte),
        Class::Word => is_word(byte),
        Class::Printable => is_printable(byte),
    }
}

// How many bytes the class has.
fn count_of(class: Class) -> u32 {
    let mut count = 0u32;
    for byte in 0..=255u8 {
        if is_of(class, byte) {
            count = count.saturating_add(1);
        }
    }
    count
}

// All of these bytes are of the class.
fn are_of(class: Class, bytes: &[u8]) -> bool {
    for byte in bytes {
        if !is_of(class, *byte) {
            return false;
        }
    }
    true
}

// A class, how many bytes it has, and some of them.
const CLASSES: &[(Class, u32, &[u8])] = &[
    (Class::Letter, 52, b"AZaz"),
    (Class::Digit, 10, b"09"),
    (Class::Url, 85, b"AZaz09-._~:/?#[]@!$&'()*+,;=%"),
    (Class::Host, 64, b"AZaz09-."),
    (Class::Base64, 64, b"AZaz09+/"),
    (Class::Hex, 22, b"09afAF"),
    (Class::Word, 94, b"!~"),
    (Class::Printable, 95, b" ~\"<>\\^`{|}"),
];

#[test]
fn a_class_has_the_bytes_of_its_table(rt: HostRuntime) {
    for (class, count, bytes) in CLASSES {
        assert!(rt; count_of(*class) == *count, "not {count}");
        assert!(rt; are_of(*class, bytes), "not {bytes:?}");
    }
    for byte in *b" \"<>\\^`{|}" {
        assert!(rt; !is_url(byte), "at {byte}");
    }
}

// A number, how many bytes its decimal has, and 20 letters with that ahead of them.
const WRITTEN: &[(u64, usize, &[u8; 20])] = &[
    (0, 1, b"0xxxxxxxxxxxxxxxxxxx"),
    (1048577, 7, b"1048577xxxxxxxxxxxxx"),
    (u64::MAX, 20, b"18446744073709551615"),
];

// The decimal is written so over 20 letters.
fn is_written(number: u64, count: usize, text: &[u8; 20]) -> bool {
    let mut into = [b'x'; 20];
    dec_write(number, &mut into) == count && into == *text
}

#[test]
fn decimals_stand_first(rt: HostRuntime) {
    for (number, count, text) in WRITTEN {
        assert!(rt; is_written(*number, *count, text), "at {number}");
    }
}

fn two_texts(alloc: Global) -> Result<Texts, NoMemory> {
    let mut texts = Texts::make(alloc);
    texts.add(Bytes::copy(alloc, &[0, 255])?)?;
    texts.add(Bytes::copy(alloc, b"b")?)?;
    Ok(texts)
}

fn are_two(items: &[Bytes]) -> bool {
    match items {
        [first, second] => {
            first.as_slice() == [0, 255].as_slice() && second.as_slice() == b"b".as_slice()
        }
        _ => false,
    }
}

fn one_name(alloc: Global) -> Result<Names, NoMemory> {
    let mut names = Names::make(alloc);
    names.add(Name::copy(alloc, "disk.raw")?)?;
    Ok(names)
}

fn is_one(items: &[Name]) -> bool {
    match items {
        [name] => name.as_str() == "disk.raw",
        _ => false,
    }
}

#[test]
fn copies_and_lists_keep_what_they_were_given(rt: HostRuntime) -> Result<(), Fail> {
    let texts = two_texts(rt.alloc())?;
    assert!(rt; are_two(texts.items()));
    let names = one_name(rt.alloc())?;
    assert!(rt; is_one(names.items()));
    Ok(())
}

const BYTES: &[u8] = &[1, 2, 3, 4, 5, 6, 7, 248];

// A place, and the numbers of two bytes there, the high byte first and the low one: one byte short, at the
// end, past it, and at the last place of all there is none.
const TWO_BYTES: &[(usize, Option<u16>, Option<u16>)] = &[
    (0, Some(0x0102), Some(0x0201)),
    (6, Some(0x07f8), Some(0xf807)),
    (7, None, None),
    (8, None, None),
    (9, None, None),
    (usize::MAX, None, None),
];

// The same of four bytes.
const FOUR_BYTES: &[(usize, Option<u32>, Option<u32>)] = &[
    (0, Some(0x0102_0304), Some(0x0403_0201)),
    (4, Some(0x0506_07f8), Some(0xf807_0605)),
    (5, None, None),
    (8, None, None),
    (9, None, None),
    (usize::MAX, None, None),
];

// The same of eight bytes, the low one first.
const EIGHT_BYTES: &[(usize, Option<u64>)] = &[
    (0, Some(0xf807_0605_0403_0201)),
    (1, None),
    (8, None),
    (9, None),
    (usize::MAX, None),
];

#[test]
fn numbers_end_where_the_bytes_end(rt: HostRuntime) {
    for (at, high, low) in TWO_BYTES {
        assert!(rt;
            be16_at(BYTES, *at) == *high && le16_at(BYTES, *at) == *low,
            "at {at}"
        );
    }
    for (at, high, low) in FOUR_BYTES {
        assert!(rt;
            be32_at(BYTES, *at) == *high && le32_at(BYTES, *at) == *low,
            "at {at}"
        );
    }
    for (at, low) in EIGHT_BYTES {
        assert!(rt; le64_at(BYTES, *at) == *low, "at {at}");
    }
}

#[test]
fn numbers_are_put_with_their_low_byte_first(rt: HostRuntime) {
    assert!(rt; put_le16(0x0102) == [2, 1]);
    assert!(rt; put_le32(0x0102_0304) == [4, 3, 2, 1]);
    assert!(rt; put_le64(0x0102_0304_0506_0708) == [8, 7, 6, 5, 4, 3, 2, 1]);
}

const READ: &[(&[u8], Option<u64>)] = &[
    (b"0", Some(0)),
    (b"7", Some(7)),
    (b"1048577", Some(1_048_577)),
    (b"18446744073709551615", Some(u64::MAX)),
    (b"", None),
    (b"00", None),
    (b"01", None),
    (b"+1", None),
    (b"-1", None),
    (b" 1", None),
    (b"1 ", None),
    (b"1\xff", None),
    (b"0x1", None),
    (b"18446744073709551616", None),
    (b"100000000000000000000", None),
];

#[test]
fn a_decimal_is_canonical_and_below_two_to_the_64(rt: HostRuntime) {
    for (text, number) in READ {
        assert!(rt; dec_read(text) == *number, "at {text:?}");
    }
}

// Two decimals behind a text.
fn pushed(alloc: Global) -> Result<Vec<u8>, NoMemory> {
    let mut into = Vec::from_slice(alloc, b"at ")?;
    dec_into(0, &mut into)?;
    dec_into(u64::MAX, &mut into)?;
    Ok(into)
}

#[test]
fn a_pushed_decimal_stands_behind(rt: HostRuntime) -> Result<(), Fail> {
    let into = pushed(rt.alloc())?;
    assert!(rt; into.as_slice() == b"at 018446744073709551615".as_slice());
    Ok(())
}

// Calls of which those of these numbers fail: 0, 1 and 4.
fn failing(alloc: Global) -> Result<Calls<u8>, NoMemory> {
    let mut calls = Calls::make(alloc);
    calls.fail(&[1])?;
    calls.fail(&[4, 0])?;
    Ok(calls)
}

// A call, and whether it is due to fail.
const MADE: &[(u8, bool)] = &[
    (b'a', true),
    (b'b', true),
    (b'c', false),
    (b'd', false),
    (b'e', true),
];

#[test]
fn calls_fail_by_their_numbers_and_are_kept(rt: HostRuntime) -> Result<(), Fail> {
    let mut calls = failing(rt.alloc())?;
    for (call, is_due) in MADE {
        assert!(rt; calls.begin(*call) == *is_due, "at {call}");
    }
    assert!(rt; calls.list() == b"abcde".as_slice());
    Ok(())
}
