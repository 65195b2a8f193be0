ghost use Rattle.std.specs.Prelude.{◌≡◌, ℕ, List, IsTrue, ◌<◌, ◌≤◌, ◌^◌, false, length, vec_len, IfOk};
ghost use Rattle.host_source.specs.Source.{IsDetached};
ghost use Rattle.host_source.specs.MemSource.{mem_slots};
ghost use Rattle.host_disk.specs.MemDisk.{mem_mounted};

mod calls;
mod generate;
mod images;
mod lists;
mod patterns;
mod refusals;
mod reports;

use crate::{Outcome, triage};
use byte_kit::NoMemory;
use host_disk::{MemDisk, SureDisk};
use host_source::{MemSink, MemSource};
use pattern_kit::{Kit, WordKit};
use std::alloc::Global;

// The most words of a call in these tests.
const WORDS_MOST: usize = 200;

// The words as `triage` takes them.
fn texts(alloc: Global, words: &[&str]) -> Result<Vec<String>, NoMemory>
    ensures { IfOk result (λ texts. vec_len texts ≤ WORDS_MOST) }
{
    let mut texts = Vec::new(alloc);
    for word in words {
        texts.push(String::from_str(alloc, word)?)?;
    }
    if texts.len() > WORDS_MOST {
        return Err(NoMemory);
    }
    Ok(texts)
}

// How a call over objects in memory ends.
type MemOutcome<K = WordKit> = Outcome<MemSource, MemSource, MemDisk, K, MemSink>;

// A call over a source, a source of lists, a disk, a kit and a sink in memory.
fn call_with<K: Kit + Drop>(
    alloc: Global,
    words: &[&str],
    source: MemSource,
    lists: MemSource,
    disk: MemDisk,
    kit: K,
    sink: MemSink,
) -> Result<MemOutcome<K>, NoMemory>
    requires detached { IsDetached (mem_slots source) }
    requires lists { IsDetached (mem_slots lists) }
    requires unmounted { mem_mounted disk ≡ false }
    requires asked { (index : ℕ) (text : List ℕ) → IsTrue (K.may_build kit index text) }
{
    let words = texts(alloc, words)?;
    let mut sources = Vec::new(alloc);
    sources.push(source)?;
    Ok(triage(alloc, words.as_slice(), sources, lists, disk, kit, sink))
}

// The same with a kit that refuses nothing, and without lists.
fn call(
    alloc: Global,
    words: &[&str],
    source: MemSource,
    disk: MemDisk,
    sink: MemSink,
) -> Result<MemOutcome, NoMemory>
    requires detached { IsDetached (mem_slots source) }
    requires unmounted { mem_mounted disk ≡ false }
{
    let lists = MemSource::make(alloc);
    call_with(alloc, words, source, lists, disk, WordKit::make(0), sink)
}

// A call over two sources in memory that hold nothing.
fn call_with_two(
    alloc: Global,
    words: &[&str],
) -> Result<Outcome<MemSource, MemSource, SureDisk, WordKit, MemSink>, NoMemory> {
    let words = texts(alloc, words)?;
    let mut sources = Vec::new(alloc);
    sources.push(MemSource::make(alloc))?;
    sources.push(MemSource::make(alloc))?;
    let (disk, kit, sink) = (
        SureDisk::make(alloc),
        WordKit::make(0),
        MemSink::make(alloc),
    );
    let lists = MemSource::make(alloc);
    Ok(triage(alloc, words.as_slice(), sources, lists, disk, kit, sink))
}

// A call over objects that hold nothing.
fn call_over_nothing(alloc: Global, words: &[&str]) -> Result<MemOutcome, NoMemory> {
    let disk = MemDisk::make(alloc);
    call(
        alloc,
        words,
        MemSource::make(alloc),
        disk,
        MemSink::make(alloc),
    )
}

// The most bytes of an image in these tests.
const IMAGE_LONGEST: usize = 1_048_576;

// A source that holds the image `i`.
fn holding(alloc: Global, image: &[u8]) -> Result<MemSource, NoMemory>
    ensures { IfOk result (λ source. IsDetached (mem_slots source)) }
{
    if image.len() > IMAGE_LONGEST {
        return Err(NoMemory);
    }
    let mut source = MemSource::make(alloc);
    source.add("i", image)?;
    Ok(source)
}

// The same, in which these calls fail.
fn source_of(alloc: Global, image: &[u8], fails: &[u64]) -> Result<MemSource, NoMemory>
    ensures { IfOk result (λ source. IsDetached (mem_slots source)) }
{
    let mut source = holding(alloc, image)?;
    source.fail_calls(fails)?;
    Ok(source)
}

// A disk in which these calls fail.
fn disk_of(alloc: Global, fails: &[u64]) -> Result<MemDisk, NoMemory>
    ensures { IfOk result (λ disk. mem_mounted disk ≡ false) }
{
    let mut disk = MemDisk::make(alloc);
    disk.fail_calls(fails)?;
    Ok(disk)
}

// A sink whose first put fails where that is wanted.
fn sink_of(alloc: Global, put_fails: bool) -> Result<MemSink, NoMemory> {
    let mut sink = MemSink::make(alloc);
    if put_fails {
        sink.fail_put(0)?;
    }
    Ok(sink)
}

// A scan of the image `i` into `o`, in which these calls of the source and of the disk fail, and the put
// of the text where that is wanted. An image that is too long for these tests is no scan.
fn scan_failing(
    alloc: Global,
    image: &[u8],
    source_fails: &[u64],
    disk_fails: &[u64],
    put_fails: bool,
) -> Result<MemOutcome, NoMemory> {
    let source = source_of(alloc, image, source_fails)?;
    let disk = disk_of(alloc, disk_fails)?;
    let sink = sink_of(alloc, put_fails)?;
    call(alloc, &["scan", "i", "o"], source, disk, sink)
}

// The same where every put works.
fn scan(
    alloc: Global,
    image: &[u8],
    source_fails: &[u64],
    disk_fails: &[u64],
) -> Result<MemOutcome, NoMemory> {
    scan_failing(alloc, image, source_fails, disk_fails, false)
}
