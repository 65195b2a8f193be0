// The settings record, both ways.
use super::{read, settings_of};
use crate::{settings_bytes, settings_read};
use byte_kit::{Bytes, NoMemory};
use std::alloc::Global;
use std::test::Fail;

// The record of the default settings, of an image of 26 bytes and of no list.
const RECORD: &[u8] = &[
    0x2f, 0, 0, 0, 1, 0x1a, 0, 0, 0, 0, 0, 0, 0, 0, 0, 0, 1, 0, 0, 0, 0, 0xbf, 3, 5, 0, 6, 0, 0x0e,
    0, 0x10, 0, 0, 0, 0, 0, 0, 0, 0, 0, 0, 0, 0, 0, 0, 0, 0, 0, 0, 0, 0, 0,
];

// The record that words give, with these sizes of an image, a stop list and an alert list.
fn written(
    alloc: Global,
    words: &[&str],
    image: u64,
    stop: u64,
    alert: u64,
) -> Result<Bytes, Fail> {
    match read(alloc, words)? {
        Ok(command) => Ok(settings_bytes(alloc, settings_of(&command), image, stop, alert)?),
        Err(_) => Err(Fail::new("refused")),
    }
}

#[test]
fn the_default_settings_are_51_bytes_both_ways(rt: HostRuntime) -> Result<(), Fail> {
    let bytes = written(rt.alloc(), &["scan", "i", "o"], 26, 0, 0)?;
    assert!(rt; bytes.as_slice() == RECORD);
    let Some(kept) = settings_read(rt.alloc(), RECORD)? else {
        return Err(Fail::new("no record"));
    };
    assert!(rt; kept.image == 26 && kept.page == 16_777_216);
    assert!(rt; kept.stop == 0 && kept.alert == 0);
    assert!(rt; kept.plan.scanners == 0x03BF && kept.plan.word_max == 14);
    Ok(())
}

// The bytes are a record.
fn is_record(alloc: Global, bytes: &[u8]) -> Result<bool, NoMemory> {
    match settings_read(alloc, bytes)? {
        Some(_) => Ok(true),
        None => Ok(false),
    }
}

// A place of the record, another byte for it, and whether that is a record still.
const CHANGES: &[(usize, u8, bool)] = &[
    (0, 0x30, false),
    (3, 1, false),
    (4, 2, false),
    (5, 255, true),
    (12, 255, true),
    (13, 1, false),
    (16, 2, false),
    (22, 7, false),
    (23, 7, true),
    (23, 8, false),
    (24, 255, true),
    (25, 0, false),
    (25, 14, true),
    (25, 15, false),
    (28, 1, false),
    (29, 128, true),
    (29, 129, false),
    (38, 255, true),
    (46, 255, true),
    (47, 1, false),
    (49, 1, false),
];

// The record with another byte at a place.
fn changed(alloc: Global, at: usize, byte: u8) -> Result<Vec<u8>, NoMemory> {
    let mut bytes = Vec::from_slice(alloc, RECORD)?;
    if let Some(place) = bytes.get_mut(at) {
        *place = byte;
    }
    Ok(bytes)
}

#[test]
fn a_record_keeps_what_settings_may_be(rt: HostRuntime) -> Result<(), Fail> {
    for &(at, byte, is) in CHANGES {
        let bytes = changed(rt.alloc(), at, byte)?;
        assert!(rt; is_record(rt.alloc(), bytes.as_slice())? == is);
    }
    Ok(())
}

// A record's front with this length of what follows.
fn with_tail(alloc: Global, length: u8, tail: &[u8]) -> Result<Vec<u8>, NoMemory> {
    let mut bytes = changed(alloc, 0, length)?;
    bytes.truncate(47);
    bytes.extend_from_slice(tail)?;
    Ok(bytes)
}

// What stands behind the sizes, the length of what follows it, and whether that is a record. A keyword need not
// be UTF-8, and a pattern must be.
const TAILS: &[(u8, &[u8], bool)] = &[
    (0x2f, &[0, 0, 0, 0], true),
    (0x2f, &[0, 0, 0, 0, 0], false),
    (0x2e, &[0, 0, 0], false),
    (0x32, &[1, 0, 1, 0, 0xff, 0, 0], true),
    (0x32, &[0, 0, 1, 0, 1, 0, 0xff], false),
    (0x32, &[0, 0, 1, 0, 1, 0, b'+'], true),
    (0x32, &[1, 0, 2, 0, 0xff, 0, 0], false),
    (0x31, &[1, 0, 0, 0, 0, 0], false),
];

#[test]
fn texts_fill_a_record_exactly(rt: HostRuntime) -> Result<(), Fail> {
    for &(length, tail, is) in TAILS {
        let bytes = with_tail(rt.alloc(), length, tail)?;
        assert!(rt; is_record(rt.alloc(), bytes.as_slice())? == is);
    }
    Ok(())
}

// Words with a text of each kind, and their tail of the record with the sizes of both lists.
const WORDS: &[&str] = &[
    "scan",
    "--find",
    "ab",
    "--pattern",
    "c",
    "--xor",
    "255",
    "i",
    "o",
];

const TAIL: &[u8] = &[
    7, 0, 0, 0, 0, 0, 0, 0, 9, 0, 0, 0, 0, 0, 0, 0, 1, 0, 2, 0, b'a', b'b', 1, 0, 1, 0, b'c',
];

#[test]
fn the_size_of_the_stop_list_stands_ahead_of_the_alert_list(rt: HostRuntime) -> Result<(), Fail> {
    let bytes = written(rt.alloc(), WORDS, 0, 7, 9)?;
    assert!(rt; bytes.as_slice().len() == 58);
    assert!(rt; bytes.as_slice().ends_with(TAIL));
    let Some(kept) = settings_read(rt.alloc(), bytes.as_slice())? else {
        return Err(Fail::new("no record"));
    };
    assert!(rt; kept.stop == 7 && kept.alert == 9 && kept.plan.mask == 255);
    assert!(rt; kept.plan.keywords.items().len() == 1);
    assert!(rt; kept.plan.patterns.items().len() == 1);
    Ok(())
}
