ghost use Rattle.std.specs.Prelude.{◌≡◌, ◌+◌, ◌<◌, ◌≤◌, length, take, drop, None, IsTrue, IfSome, IfOk};
ghost use Rattle.host_source.specs.MemSource.{mem_slots};
ghost use Rattle.host_source.specs.Source.{IsDetached, MayAttachAll, told};

use crate::{
    MemSink, MemSource, Sink, SinkFault, Source, SourceCall, SourceFault, SureSource, Untold,
};
use byte_kit::NoMemory;
use std::alloc::Global;
use std::test::Fail;
use std::thread::{self, Threads};

// The size of what the name holds. Where `into` fits in behind place `at`, it is filled from there on.
fn read_from<S: Source>(
    source: &mut S,
    slot: u32,
    name: &str,
    at: u64,
    into: &mut [u8],
) -> Result<u64, SourceFault>
    requires below { slot < 64 }
    requires free { S.slots source.old slot ≡ None }
    requires asked { IsTrue ((S.nature source.old).may_attach name.now) }
    ensures size { IfOk result (λ size. IfSome (told (S.nature source.old) name.now) (λ bytes. size ≡ length bytes)) }
    ensures read { IfOk result (λ size. at + length into.old ≤ size
        → IfSome (told (S.nature source.old) name.now) (λ bytes. into.new ≡ take (length into.new) (drop at bytes))) }
{
    let size = source.attach(slot, name)?;
    if at <= size && into.len() as u64 <= size - at {
        source.read_at(slot, at, into)?;
    }
    Ok(size)
}

// Attaches the name to slot 0, and says whether it was refused.
fn is_refused<S: Source>(source: &mut S, name: &str) -> bool
    requires free { S.slots source.old 0 ≡ None }
    requires asked { IsTrue ((S.nature source.old).may_attach name.now) }
    ensures free { IsTrue result → S.slots source.new 0 ≡ None }
    ensures same { S.nature source.new ≡ S.nature source.old }
{
    source.attach(0, name).is_err()
}

// Attaches the name to slot 0 and reads its first bytes. Whether each call failed at first, and then worked.
fn works_at_the_second_try<S: Source>(source: &mut S, name: &str, into: &mut [u8]) -> bool
    requires detached { IsDetached (S.slots source.old) }
    requires asked { MayAttachAll (S.nature source.old) }
{
    if !is_refused(source, name) {
        return false;
    }
    let Ok(size) = source.attach(0, name) else {
        return false;
    };
    if size < into.len() as u64 || source.read_at(0, 0, into).is_ok() {
        return false;
    }
    source.read_at(0, 0, into).is_ok()
}

// Hands each source to a thread.
fn hand_out<R: Threads + Sync, S: Source + Send + Drop>(rt: &R, sources: &mut Vec<S>) {
    thread::for_each_mut(rt, sources.as_mut_slice(), 2, &|_, _: &mut S| {});
}

// A source that holds two names.
fn two_names(alloc: Global) -> Result<MemSource, NoMemory>
    ensures { IfOk result (λ source. IsDetached (mem_slots source)) }
{
    let mut source = MemSource::make(alloc);
    source.add("note.txt", b"")?;
    source.add("disk.raw", b"0123456789")?;
    Ok(source)
}

// The size of what the name holds, and four bytes from place `at` on.
fn four_of<S: Source + Drop>(
    mut source: S,
    slot: u32,
    name: &str,
    at: u64,
) -> Result<(u64, [u8; 4]), SourceFault>
    requires below { slot < 64 }
    requires free { S.slots source slot ≡ None }
    requires asked { IsTrue ((S.nature source).may_attach name.now) }
{
    let mut into = [b'x'; 4];
    let size = read_from(&mut source, slot, name, at, &mut into)?;
    Ok((size, into))
}

#[test]
fn attach_gives_the_size_and_a_read_in_the_middle_its_bytes(rt: HostRuntime) -> Result<(), Fail> {
    let mut source = two_names(rt.alloc())?;
    // A missing name leaves the slot free.
    assert!(rt; is_refused(&mut source, "disk.ra"));
    assert!(rt; four_of(source, 0, "disk.raw", 3)? == (10, *b"3456"));
    Ok(())
}

#[test]
fn a_sure_source_is_read_in_the_middle(rt: HostRuntime) -> Result<(), Fail> {
    let sure = SureSource::of("disk.raw", b"abcdefgh");
    assert!(rt; four_of(sure, 63, "disk.raw", 4)? == (8, *b"efgh"));
    Ok(())
}

// A source that holds a name of 2^40 bytes.
fn filled(alloc: Global) -> Result<MemSource, NoMemory>
    ensures { IfOk result (λ source. IsDetached (mem_slots source)) }
{
    let mut source = MemSource::make(alloc);
    source.add_filled("disk.raw", 1 << 40, b'z')?;
    Ok(source)
}

#[test]
fn a_filled_name_holds_one_byte_so_many_times(rt: HostRuntime) -> Result<(), Fail> {
    let source = filled(rt.alloc())?;
    assert!(rt; four_of(source, 0, "disk.raw", (1 << 40) - 4)? == (1 << 40, *b"zzzz"));
    Ok(())
}

#[test]
fn an_untold_source_is_read_like_its_own(rt: HostRuntime) -> Result<(), Fail> {
    let untold = Untold(two_names(rt.alloc())?);
    assert!(rt; four_of(untold, 0, "disk.raw", 3)? == (10, *b"3456"));
    Ok(())
}

// A source of which the calls 0, 2 and 7 fail.
fn failing(alloc: Global) -> Result<MemSource, NoMemory>
    ensures { IfOk result (λ source. IsDetached (mem_slots source)) }
{
    let mut source = two_names(alloc)?;
    source.fail_calls(&[2])?;
    source.fail_calls(&[7, 0])?;
    Ok(source)
}

const ATTACH: SourceCall = SourceCall::Attach { slot: 0 };

const READ: SourceCall = SourceCall::Read {
    slot: 0,
    at: 0,
    bytes: 4,
};

// The calls of the test below.
const MADE: &[SourceCall] = &[ATTACH, ATTACH, READ, READ];

#[test]
fn the_named_calls_fail_and_the_next_one_works(rt: HostRuntime) -> Result<(), Fail> {
    let mut source = failing(rt.alloc())?;
    let mut into = [b'x'; 4];
    assert!(rt; works_at_the_second_try(&mut source, "disk.raw", &mut into));
    assert!(rt; into == *b"0123" && source.calls() == MADE);
    Ok(())
}

#[test]
fn sources_can_be_handed_to_threads(rt: HostRuntime) -> Result<(), Fail> {
    let alloc = rt.alloc();
    hand_out(&rt, &mut vec![in alloc; MemSource::make(alloc)]?);
    hand_out(
        &rt,
        &mut vec![in alloc; SureSource::of("a", b"b"), SureSource::of("c", b"d")]?,
    );
    Ok(())
}

// Puts the bytes, and says how that ended.
fn put_into<O: Sink>(sink: &mut O, bytes: &[u8]) -> Result<(), SinkFault> {
    sink.put(bytes)
}

// A sink of which the puts 1 and 3 fail.
fn failing_sink(alloc: Global) -> Result<MemSink, NoMemory> {
    let mut sink = MemSink::make(alloc);
    sink.fail_put(1)?;
    sink.fail_put(3)?;
    Ok(sink)
}

// What is put, how that ends, and what the sink has taken then.
const PUTS: &[(&[u8], Result<(), SinkFault>, &[u8])] = &[
    (b"ab", Ok(()), b"ab"),
    (b"cdefg", Err(SinkFault::Failed), b"abcd"),
    (b"", Ok(()), b"abcd"),
    (b"h", Err(SinkFault::Failed), b"abcd"),
    (b"h", Ok(()), b"abcdh"),
    (b"ij\n", Ok(()), b"abcdhij\n"),
];

#[test]
fn a_put_that_fails_leaves_half_of_its_bytes(rt: HostRuntime) -> Result<(), Fail> {
    let mut sink = failing_sink(rt.alloc())?;
    for (bytes, end, taken) in PUTS {
        assert!(rt; put_into(&mut sink, bytes) == *end, "at {taken:?}");
        assert!(rt; sink.bytes() == *taken, "at {taken:?}");
    }
    assert!(rt; sink.puts() == [2, 5, 0, 1, 1, 3].as_slice());
    Ok(())
}
