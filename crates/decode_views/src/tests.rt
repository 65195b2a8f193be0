use crate::{find_runs, utf16_run, utf16_value, xor_view};
use byte_kit::NoMemory;
use forensic_path::Decoder;
use sbuf_nest::{Extent, Look, Sbuf, Start, Starts};
use std::alloc::Global;
use std::test::Fail;

// Eight pairs.
const EIGHT: &[u8] = b"e\0i\0g\0h\0t\0 \0p\0a\0";

// How many bytes a run covers, and how many pairs it has.
type Run = (u32, u32);

// What stands ahead of a place and from it on, and the run that begins there.
type RunRow = (&'static [u8], &'static [u8], Option<Run>);

const RUNS: &[RunRow] = &[
    (b"", b"s\0e\0v\0e\0n\0 \0p\0", None),
    (b"", b"s\0e\0v\0e\0n\0 \0p\0a", None),
    (b"", b"s\0e\0v\0e\0n\0 \0p\0a\x01", None),
    (b"", EIGHT, Some((16, 8))),
    (b"", b"e\0i\0g\0h\0t\0 \0p\0a\0\n\0x\0", Some((16, 8))),
    (b"", b"n\0i\0n\0e\0 \0p\0a\0i\0r\0", Some((18, 9))),
    (b"", b"n\0i\0n\0e\0 \0p\0a\0i\0r\0s", Some((18, 9))),
    (b"", b" \0~\0 \0~\0 \0~\0 \0~\0", Some((16, 8))),
    (b"", b"\x1f\0i\0g\0h\0t\0 \0p\0a\0i\0", None),
    (b"", b"e\0i\0g\0h\0t\0 \0p\0\x7f\0i\0", None),
    (b"", b"\0e\0i\0g\0h\0t\0 \0p\0a", None),
    (b"", b"", None),
    (b"x\0", EIGHT, None),
    (b"xx\0", EIGHT, None),
    (b"\0", EIGHT, Some((16, 8))),
    (b"x", EIGHT, Some((16, 8))),
    (b"xx", EIGHT, Some((16, 8))),
    (b"\0x", EIGHT, Some((16, 8))),
    (b"\0\0", EIGHT, Some((16, 8))),
    (b"\n\0", EIGHT, Some((16, 8))),
];

fn run_at(before: &[u8], after: &[u8]) -> Option<Run> {
    utf16_run(&Look { before, after }).map(|run| (run.bytes, run.units))
}

#[test]
fn a_run_has_at_least_8_pairs_and_none_right_ahead(rt: HostRuntime) {
    for &(before, after, run) in RUNS {
        assert_eq!(rt; run_at(before, after), run, "at {before:?} and {after:?}");
    }
}

// So many bytes, and behind them so many pairs of an `a`.
fn long(alloc: Global, ahead: &[u8], pairs: usize) -> Result<Vec<u8>, NoMemory> {
    let mut bytes = Vec::from_slice(alloc, ahead)?;
    for _ in 0..pairs {
        bytes.extend_from_slice(b"a\0")?;
    }
    Ok(bytes)
}

#[test]
fn at_most_4096_pairs_are_taken(rt: HostRuntime) -> Result<(), Fail> {
    for (pairs, run) in [
        (4095, (8190, 4095)),
        (4096, (8192, 4096)),
        (4097, (8192, 4096)),
    ] {
        let bytes = long(rt.alloc(), b"", pairs)?;
        assert_eq!(rt; run_at(b"", bytes.as_slice()), Some(run), "of {pairs}");
    }
    Ok(())
}

// The value of the run at the front of the bytes, in place of what `into` held.
fn decode(after: &[u8], into: &mut Vec<u8>) -> Result<(), NoMemory> {
    let before: &[u8] = b"";
    match utf16_run(&Look { before, after }) {
        None => Ok(()),
        Some(extent) => utf16_value(after, extent, into),
    }
}

#[test]
fn the_value_has_the_first_byte_of_each_pair(rt: HostRuntime) -> Result<(), Fail> {
    let mut value = Vec::from_slice(rt.alloc(), b"older")?;
    for (after, want) in [
        (
            b"h\0t\0t\0p\0:\0/\0/\0a\0.\0b\0/\0i\0".as_slice(),
            "http://a.b/i",
        ),
        (b"h\0i\0 \0t\0h\0e\0r\0e\0\0\0", "hi there"),
    ] {
        decode(after, &mut value)?;
        assert!(rt; value.as_slice() == want.as_bytes(), "of {want}");
    }
    Ok(())
}

// The runs of a buffer, whose places from `from` up to `to` are owned, begin at these places and are
// so long.
fn are_runs(
    sb: (&[u8], usize, usize),
    want: &[(usize, Run)],
    alloc: Global,
) -> Result<bool, NoMemory> {
    let (bytes, from, to) = sb;
    if from > to || to > bytes.len() {
        return Ok(false);
    }
    let mut found = Starts::make(alloc);
    find_runs(&Sbuf::of(bytes, from, to, 0), &mut found)?;
    let starts = found.items();
    Ok(
        starts.len() == want.len()
            && starts
                .iter()
                .zip(want.iter())
                .all(|(start, run)| is_start(start, run.0, run.1)),
    )
}

fn is_start(start: &Start, at: usize, run: Run) -> bool {
    let (bytes, units) = run;
    *start
        == Start {
            at,
            by: Decoder::Utf16,
            extent: Extent { bytes, units },
        }
}

// A buffer, which of its places are owned, and the places and lengths of its runs.
type FindRow = (&'static [u8], usize, usize, &'static [(usize, Run)]);

const BUFFERS: &[FindRow] = &[
    (EIGHT, 0, 16, &[(0, (16, 8))]),
    (EIGHT, 0, 1, &[(0, (16, 8))]),
    (EIGHT, 0, 0, &[]),
    (EIGHT, 1, 16, &[]),
    (b"s\0e\0v\0e\0n\0 \0p\0", 0, 14, &[]),
    (b"xe\0i\0g\0h\0t\0 \0p\0a\0", 0, 17, &[(1, (16, 8))]),
    (b"\0e\0i\0g\0h\0t\0 \0p\0a\0", 0, 17, &[(1, (16, 8))]),
    (b"\0e\0i\0g\0h\0t\0 \0p\0a", 0, 16, &[]),
    (b"\0e\0i\0g\0h\0t\0 \0p\0a\xff\0", 0, 18, &[]),
    (b"x\0e\0i\0g\0h\0t\0 \0p\0a\0", 0, 18, &[(0, (18, 9))]),
    (b"x\0e\0i\0g\0h\0t\0 \0p\0a\0", 1, 18, &[]),
    (b"x\0e\0i\0g\0h\0t\0 \0p\0a\0", 2, 18, &[]),
    (b"\n\0e\0i\0g\0h\0t\0 \0p\0a\0", 0, 18, &[(2, (16, 8))]),
    (b"\n\0e\0i\0g\0h\0t\0 \0p\0a\0", 2, 3, &[(2, (16, 8))]),
    (
        b"h\0e\0r\0e\0 \0a\0r\0e\0\n\0t\0w\0o\0 \0r\0u\0n\0s\0 \0",
        0,
        36,
        &[(0, (16, 8)), (18, (18, 9))],
    ),
    (
        b"h\0e\0r\0e\0 \0a\0r\0e\0!t\0w\0o\0 \0r\0u\0n\0s\0 \0",
        0,
        35,
        &[(0, (16, 8)), (17, (18, 9))],
    ),
    (
        b"h\0e\0r\0e\0 \0a\0r\0e\0\0t\0w\0o\0 \0r\0u\0n\0s\0 \0",
        1,
        35,
        &[(17, (18, 9))],
    ),
    (b"", 0, 0, &[]),
];

#[test]
fn the_runs_of_the_owned_places_are_found(rt: HostRuntime) -> Result<(), Fail> {
    for &(bytes, from, to, want) in BUFFERS {
        assert!(rt;
            are_runs((bytes, from, to), want, rt.alloc())?,
            "in {bytes:?} from {from} to {to}"
        );
    }
    Ok(())
}

// Eight pairs behind so many other bytes, and as many bytes in all.
fn spaced(alloc: Global, ahead: usize, other: u8, length: usize) -> Result<Vec<u8>, NoMemory> {
    let mut bytes = Vec::new(alloc);
    bytes.resize(ahead, other)?;
    bytes.extend_from_slice(EIGHT)?;
    bytes.resize(length, other)?;
    Ok(bytes)
}

#[test]
fn no_offset_hides_a_run(rt: HostRuntime) -> Result<(), Fail> {
    for at in 0..241 {
        for other in [0, b'.', 255] {
            let bytes = spaced(rt.alloc(), at, other, 256)?;
            assert!(rt;
                are_runs((bytes.as_slice(), 0, 256), &[(at, (16, 8))], rt.alloc())?,
                "at {at} behind {other}"
            );
        }
    }
    Ok(())
}

// What stands ahead of a long run, how many pairs it has, the first owned place, and the runs.
type LongRow = (&'static [u8], usize, usize, &'static [(usize, Run)]);

const LONG: &[LongRow] = &[
    (b"", 4096, 0, &[(0, (8192, 4096))]),
    (b"", 4097, 0, &[(0, (8192, 4096))]),
    (b".", 10000, 0, &[(1, (8192, 4096))]),
    (b"", 10000, 1, &[]),
    (b"", 10000, 2, &[]),
    (b"", 10000, 8192, &[]),
];

#[test]
fn a_run_that_is_cut_begins_once(rt: HostRuntime) -> Result<(), Fail> {
    for &(ahead, pairs, from, want) in LONG {
        let bytes = long(rt.alloc(), ahead, pairs)?;
        let to = bytes.len();
        assert!(rt;
            are_runs((bytes.as_slice(), from, to), want, rt.alloc())?,
            "{pairs} from {from}"
        );
    }
    Ok(())
}

// Some bytes, a mask, and the bytes as it shows them.
const VIEWS: &[(&[u8], u8, &[u8])] = &[
    (b"", 255, b""),
    (b"\0\x01\xfe\xff", 255, b"\xff\xfe\x01\0"),
    (b"\0Http\xaa", 85, b"\x55\x1d!!%\xff"),
    (b"Http", 32, b"hTTP"),
    (b"hTTP", 32, b"Http"),
    (b"\x55\x1d!!%\xff", 85, b"\0Http\xaa"),
];

#[test]
fn a_view_has_each_byte_masked(rt: HostRuntime) -> Result<(), Fail> {
    let mut view = Vec::from_slice(rt.alloc(), b"older")?;
    for &(bytes, mask, want) in VIEWS {
        xor_view(bytes, mask, &mut view)?;
        assert!(rt; view.as_slice() == want, "{bytes:?} by {mask}");
    }
    Ok(())
}
