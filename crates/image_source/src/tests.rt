ghost use Rattle.std.specs.Prelude.{IfOk};
ghost use Rattle.host_source.specs.MemSource.{mem_slots};
ghost use Rattle.host_source.specs.Source.{IsDetached};

use crate::{PARTS_MOST, Parts, PartsFault};
use byte_kit::{Name, NoMemory};
use host_source::{MemSource, SourceCall, SourceFault};
use std::alloc::Global;
use std::process::Abort;
use std::test::Fail;

// A source of which `a` holds 0123, `b` nothing, and `c` 456789, and these calls fail.
fn source(alloc: Global, failing: &[u64]) -> Result<MemSource, NoMemory>
    ensures { IfOk result (λ source. IsDetached (mem_slots source)) }
{
    let mut source = MemSource::make(alloc);
    source.add("a", b"0123")?;
    source.add("b", b"")?;
    source.add("c", b"456789")?;
    source.fail_calls(failing)?;
    Ok(source)
}

fn names(alloc: Global, words: &[&str]) -> Result<Vec<Name>, NoMemory> {
    let mut names = Vec::new(alloc);
    for word in words {
        names.push(Name::copy(alloc, word)?)?;
    }
    Ok(names)
}

// The image of the parts of these names, or why they were not attached.
fn attach(
    rt: &impl Abort,
    alloc: Global,
    failing: &[u64],
    words: &[&str],
) -> Result<Result<Parts<MemSource>, PartsFault>, Fail> {
    let source = source(alloc, failing)?;
    let names = names(alloc, words)?;
    assert!(rt; !names.is_empty() && names.len() <= PARTS_MOST);
    match Parts::attach(alloc, source, names.as_slice()) {
        Ok(parts) => Ok(Ok(parts)),
        Err((_, fault)) => Ok(Err(fault)),
    }
}

// So many bytes from a place on, which are there.
fn read(
    rt: &impl Abort,
    alloc: Global,
    parts: &mut Parts<MemSource>,
    at: u64,
    count: usize,
) -> Result<Result<Vec<u8>, SourceFault>, Fail> {
    let mut into = vec![in alloc; b'x'; count]?;
    assert!(rt; at <= parts.size() && count as u64 <= parts.size() - at);
    match parts.read_at(at, into.as_mut_slice()) {
        Ok(()) => Ok(Ok(into)),
        Err(fault) => Ok(Err(fault)),
    }
}

// A read: the slot, the place in it, and how many bytes.
type Read = (u32, u64, u64);

// The calls are these reads, in their order, behind so many that attached parts.
fn are_reads(calls: &[SourceCall], attached: usize, reads: &[Read]) -> bool {
    calls.len() == attached.saturating_add(reads.len())
        && calls.iter().skip(attached).zip(reads).all(|(call, read)| {
            let (slot, at, bytes) = *read;
            *call == SourceCall::Read { slot, at, bytes }
        })
}

// The names of the parts, the size of their image, a place, the bytes from there on, and the calls that read them.
const READS: &[(&[&str], u64, u64, &[u8], &[Read])] = &[
    (&["a"], 4, 0, b"0123", &[(0, 0, 4)]),
    (&["a"], 4, 1, b"12", &[(0, 1, 2)]),
    (&["a"], 4, 4, b"", &[]),
    (&["b", "b"], 0, 0, b"", &[]),
    (&["a", "c"], 10, 0, b"0123456789", &[(0, 0, 4), (1, 0, 6)]),
    (&["c", "a"], 10, 0, b"4567890123", &[(0, 0, 6), (1, 0, 4)]),
    (&["a", "b", "c"], 10, 2, b"2345", &[(0, 2, 2), (2, 0, 2)]),
    (&["a", "b", "c"], 10, 4, b"45", &[(2, 0, 2)]),
    (&["b", "a", "b"], 4, 3, b"3", &[(1, 3, 1)]),
    (
        &["a", "c", "a", "c"],
        20,
        3,
        b"345678901234",
        &[(0, 3, 1), (1, 0, 6), (2, 0, 4), (3, 0, 1)],
    ),
    (&["a"; 64], 256, 251, b"301", &[(62, 3, 1), (63, 0, 2)]),
];

#[test]
fn parts_are_read_as_one_image(rt: HostRuntime) -> Result<(), Fail> {
    for (names, size, at, bytes, calls) in READS {
        let mut parts = attach(&rt, rt.alloc(), &[], names)??;
        assert_eq!(rt; parts.size(), *size);
        let found = read(&rt, rt.alloc(), &mut parts, *at, bytes.len())??;
        assert_eq!(rt; found.as_slice(), *bytes);
        let source = parts.into_source();
        assert!(rt; are_reads(source.calls(), names.len(), calls));
    }
    Ok(())
}

#[test]
fn each_part_has_its_size(rt: HostRuntime) -> Result<(), Fail> {
    let source = source(rt.alloc(), &[])?;
    let names = names(rt.alloc(), &["c", "b", "a"])?;
    assert_eq!(rt; names.len(), 3);
    let Ok(parts) = Parts::attach(rt.alloc(), source, names.as_slice()) else {
        return Err(PartsFault::Read.into());
    };
    assert_eq!(rt; parts.part_size(0), 6);
    assert_eq!(rt; parts.part_size(1), 0);
    assert_eq!(rt; parts.part_size(2), 4);
    Ok(())
}

#[test]
fn each_call_of_the_source_may_fail(rt: HostRuntime) -> Result<(), Fail> {
    for failing in 0..3 {
        let refused = attach(&rt, rt.alloc(), &[failing], &["a", "b", "c"])?;
        assert!(rt; matches!(refused, Err(PartsFault::Read)));
    }
    assert!(rt;
        matches!(
            attach(&rt, rt.alloc(), &[], &["a", "d"])?,
            Err(PartsFault::Read)
        )
    );
    for failing in 3..5 {
        let mut parts = attach(&rt, rt.alloc(), &[failing], &["a", "b", "c"])??;
        let refused = read(&rt, rt.alloc(), &mut parts, 2, 4)?;
        assert!(rt; matches!(refused, Err(SourceFault)));
        let found = read(&rt, rt.alloc(), &mut parts, 2, 4)??;
        assert_eq!(rt; found.as_slice(), b"2345".as_slice());
    }
    Ok(())
}

// Windows in their order, and the bytes of each: `None` where it was refused.
const WINDOWS: &[(u64, u64, Option<&[u8]>)] = &[
    (0, 4, Some(b"0123")),
    (2, 8, Some(b"234567")),
    (3, 6, Some(b"345")),
    (6, 6, Some(b"")),
    (6, 8, Some(b"67")),
    (3, 9, Some(b"345678")),
    (5, 10, None),
    (5, 10, Some(b"56789")),
    (10, 10, Some(b"")),
];

// The reads of all of them.
const WINDOW_READS: &[Read] = &[
    (0, 0, 4),
    (1, 0, 4),
    (1, 2, 2),
    (0, 3, 1),
    (1, 0, 5),
    (1, 5, 1),
    (1, 5, 1),
];

#[test]
fn a_window_reads_what_the_last_one_did_not_have(rt: HostRuntime) -> Result<(), Fail> {
    let mut parts = attach(&rt, rt.alloc(), &[7], &["a", "c"])??;
    for (from, to, bytes) in WINDOWS {
        assert!(rt; *from <= *to && *to <= parts.size());
        let loaded = parts.load(*from, *to);
        assert_eq!(rt; loaded.is_ok(), bytes.is_some());
        if let Some(bytes) = bytes {
            assert_eq!(rt; parts.window(), *bytes);
        }
    }
    parts.unload();
    assert!(rt; parts.window().is_empty());
    let source = parts.into_source();
    assert!(rt; are_reads(source.calls(), 2, WINDOW_READS));
    Ok(())
}
