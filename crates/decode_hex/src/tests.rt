use crate::{find_runs, hex_run, hex_value};
use byte_kit::NoMemory;
use forensic_path::Decoder;
use sbuf_nest::{Extent, Look, Sbuf, Start, Starts};
use std::alloc::Global;
use std::test::Fail;

// The hexadecimal digits of `hello, hex world`.
const HELLO: &[u8] = b"68656c6c6f2c2068657820776f726c64";

// What stands ahead of a place and from it on, and the bytes and digits of the run there.
type RunRow = (&'static [u8], &'static [u8], Option<(u32, u32)>);

const RUNS: &[RunRow] = &[
    (b"", b"68656c6c6f2c2068657820776f726c6", None),
    (b"", HELLO, Some((32, 32))),
    (b"", b"68656c6c6f2c2068657820776f726c642", Some((32, 32))),
    (b"", b"68656c6c6f2c2068657820776f726c6421", Some((34, 34))),
    (b"", b"0123456789abcdefABCDEF9876543210", Some((32, 32))),
    (b"", b"68656C6C6F2C2068657820776F726C64", Some((32, 32))),
    (b"", b"68656c6c6f2c2068657820776f726c6/6", None),
    (b"", b"68656c6c6f2c2068657820776f726c6:6", None),
    (b"", b"68656c6c6f2c2068657820776f726c6@6", None),
    (b"", b"68656c6c6f2c2068657820776f726c6G6", None),
    (b"", b"68656c6c6f2c2068657820776f726c6`6", None),
    (b"", b"68656c6c6f2c2068657820776f726c6g6", None),
    (
        b"",
        b"68656c6c6f2c2068657820776f726c64\n68656c6c6f2c2068657820776f726c64",
        Some((32, 32)),
    ),
    (b"", b" 68656c6c6f2c2068657820776f726c64", None),
    (b"", b"", None),
    (b"0", HELLO, None),
    (b"9", HELLO, None),
    (b"a", HELLO, None),
    (b"f", HELLO, None),
    (b"A", HELLO, None),
    (b"F", HELLO, None),
    (b" f", HELLO, None),
    (b"/", HELLO, Some((32, 32))),
    (b":", HELLO, Some((32, 32))),
    (b"@", HELLO, Some((32, 32))),
    (b"G", HELLO, Some((32, 32))),
    (b"`", HELLO, Some((32, 32))),
    (b"g", HELLO, Some((32, 32))),
    (b"f ", HELLO, Some((32, 32))),
];

fn run_at(before: &[u8], after: &[u8]) -> Option<(u32, u32)> {
    let run = hex_run(&Look { before, after })?;
    Some((run.bytes, run.units))
}

#[test]
fn a_run_has_at_least_32_digits_and_none_right_ahead(rt: HostRuntime) {
    for &(before, after, want) in RUNS {
        assert_eq!(rt; run_at(before, after), want, "at {before:?} and {after:?}");
    }
}

// Some bytes, and behind them so many digits.
fn long(alloc: Global, ahead: &[u8], digits: usize) -> Result<Vec<u8>, NoMemory> {
    let mut bytes = Vec::from_slice(alloc, ahead)?;
    bytes.resize(ahead.len().saturating_add(digits), b'7')?;
    Ok(bytes)
}

#[test]
fn at_most_16384_digits_are_taken_and_whole_pairs_alone(rt: HostRuntime) -> Result<(), Fail> {
    for (digits, taken) in [
        (16383, 16382),
        (16384, 16384),
        (16385, 16384),
        (16386, 16384),
    ] {
        let bytes = long(rt.alloc(), b"", digits)?;
        assert_eq!(rt;
            run_at(b"", bytes.as_slice()),
            Some((taken, taken)),
            "of {digits}"
        );
    }
    Ok(())
}

// A run and its value.
type ValueRow = (&'static [u8], &'static [u8]);

const VALUES: &[ValueRow] = &[
    (HELLO, b"hello, hex world"),
    (
        b"6148523063446f764c3256345957317762475575593239744c32686c624778764c586476636d786b4c54453d",
        b"aHR0cDovL2V4YW1wbGUuY29tL2hlbGxvLXdvcmxkLTE=",
    ),
    (
        b"00102030405060708090A0B0C0D0E0F00f1f2f3f4f5f6f7f8f9fafbfcfdfefff",
        b"\0\x10\x20\x30\x40\x50\x60\x70\x80\x90\xa0\xb0\xc0\xd0\xe0\xf0\x0f\x1f\x2f\x3f\x4f\x5f\x6f\x7f\x8f\x9f\xaf\xbf\xcf\xdf\xef\xff",
    ),
    (b"68656c6c6f2c2068657820776f726c642", b"hello, hex world"),
    (b"68656c6c6f2c2068657820776f726c6421", b"hello, hex world!"),
    (b"68656c6c6f2c2068657820776f726c64 21", b"hello, hex world"),
];

// Puts the value of the run in front in place of what `into` has, if there is a run.
fn value_into(after: &[u8], into: &mut Vec<u8>) -> Result<bool, NoMemory> {
    let Some(extent) = hex_run(&Look { before: b"", after }) else {
        return Ok(false);
    };
    hex_value(after, extent, into)?;
    Ok(true)
}

#[test]
fn a_value_has_a_byte_for_each_two_digits(rt: HostRuntime) -> Result<(), Fail> {
    let mut value = Vec::from_slice(rt.alloc(), b"what stood there")?;
    for &(digits, want) in VALUES {
        assert!(rt; value_into(digits, &mut value)?, "no run: {digits:?}");
        assert!(rt; value.as_slice() == want, "of {digits:?}");
    }
    Ok(())
}

// The runs of a buffer, whose places from `from` up to `to` are owned, begin at these places and have so
// many digits.
fn are_runs(
    sb: (&[u8], usize, usize),
    want: &[(usize, u32)],
    alloc: Global,
) -> Result<bool, NoMemory> {
    let (bytes, from, to) = sb;
    if from > to || to > bytes.len() {
        return Ok(false);
    }
    let mut starts = Starts::make(alloc);
    find_runs(&Sbuf::of(bytes, from, to, 0), &mut starts)?;
    let found = starts.items();
    Ok(
        found.len() == want.len()
            && found
                .iter()
                .zip(want.iter())
                .all(|(start, run)| is_start(start, run.0, run.1)),
    )
}

fn is_start(start: &Start, at: usize, digits: u32) -> bool {
    *start
        == Start {
            at,
            by: Decoder::Hex,
            extent: Extent {
                bytes: digits,
                units: digits,
            },
        }
}

// A buffer, which of its places are owned, and the places and digits of its runs.
type FindRow = (&'static [u8], usize, usize, &'static [(usize, u32)]);

// Two runs, a byte apart, behind a byte of another class.
const TWO: &[u8] = b".68656c6c6f2c2068657820776f726c64:68656C6C6F2C2068657820776F726C6421f";

const BUFFERS: &[FindRow] = &[
    (HELLO, 0, 32, &[(0, 32)]),
    (HELLO, 0, 1, &[(0, 32)]),
    (HELLO, 0, 0, &[]),
    (HELLO, 1, 32, &[]),
    (HELLO, 32, 32, &[]),
    (b"68656c6c6f2c2068657820776f726c6", 0, 31, &[]),
    (b"68656c6c6f2c2068657820776f726c642", 0, 33, &[(0, 32)]),
    (TWO, 0, 69, &[(1, 32), (34, 34)]),
    (TWO, 0, 1, &[]),
    (TWO, 0, 2, &[(1, 32)]),
    (TWO, 1, 34, &[(1, 32)]),
    (TWO, 1, 35, &[(1, 32), (34, 34)]),
    (TWO, 2, 69, &[(34, 34)]),
    (TWO, 33, 69, &[(34, 34)]),
    (TWO, 34, 69, &[(34, 34)]),
    (TWO, 35, 69, &[]),
    (
        b"68656c6c6f2c2068657820776f726c6.68656c6c6f2c2068657820776f726c6\n68656c6c6f2c2068657820776f726c64",
        0,
        96,
        &[(64, 32)],
    ),
    (b"", 0, 0, &[]),
];

#[test]
fn the_runs_of_the_owned_places_are_found(rt: HostRuntime) -> Result<(), Fail> {
    for &(bytes, from, to, want) in BUFFERS {
        assert!(rt;
            are_runs((bytes, from, to), want, rt.alloc())?,
            "in {bytes:?} from {from} to {to}"
        );
    }
    Ok(())
}

// A run behind so many other bytes, and as many bytes in all.
fn spaced(alloc: Global, ahead: usize, length: usize) -> Result<Vec<u8>, NoMemory> {
    let mut bytes = Vec::new(alloc);
    bytes.resize(ahead, b'.')?;
    bytes.extend_from_slice(HELLO)?;
    bytes.resize(length, b'.')?;
    Ok(bytes)
}

#[test]
fn no_offset_hides_a_run(rt: HostRuntime) -> Result<(), Fail> {
    for at in 0..65 {
        let bytes = spaced(rt.alloc(), at, 97)?;
        assert!(rt;
            are_runs((bytes.as_slice(), 0, 97), &[(at, 32)], rt.alloc())?,
            "at {at}"
        );
    }
    Ok(())
}

// What stands ahead of a long run, how many digits it has, the first owned place, and the runs.
type LongRow = (&'static [u8], usize, usize, &'static [(usize, u32)]);

const LONG: &[LongRow] = &[
    (b"", 16384, 0, &[(0, 16384)]),
    (b"", 16386, 0, &[(0, 16384)]),
    (b".", 40000, 0, &[(1, 16384)]),
    (b".", 40000, 1, &[(1, 16384)]),
    (b".", 40000, 2, &[]),
    (b".", 40000, 16385, &[]),
];

#[test]
fn a_run_that_is_cut_begins_once(rt: HostRuntime) -> Result<(), Fail> {
    for &(ahead, digits, from, want) in LONG {
        let bytes = long(rt.alloc(), ahead, digits)?;
        let to = bytes.len();
        assert!(rt;
            are_runs((bytes.as_slice(), from, to), want, rt.alloc())?,
            "{digits} from {from}"
        );
    }
    Ok(())
}
