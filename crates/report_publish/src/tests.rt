ghost use Rattle.std.specs.Prelude.{◌≡◌, ◌<◌, true, false, IfOk};
ghost use Rattle.host_disk.specs.MemDisk.{mem_mounted};

mod feature_files;
mod histograms;
mod pieces;
mod refusals;

use crate::{PublishFault, publish_items};
use byte_kit::{Bytes, NoMemory};
use forensic_path::{Class, Classed, Decoder, Feature, Kind, Path, Step, Steps};
use host_disk::{Disk, DiskFault, MemDisk};
use std::alloc::Global;

// A path behind some Base64 steps.
fn path(alloc: Global, top: u64, steps: u64) -> Result<Path, NoMemory> {
    let mut list = Steps::make(alloc);
    for _ in 0..steps {
        list.add(Step {
            by: Decoder::Base64,
            at: 7,
        })?;
    }
    Ok(Path { top, steps: list })
}

// A feature: its class, its kind, its place of the image and the count of its Base64 steps, and its texts.
type Row = (Class, Kind, (u64, u64), &'static str, &'static str);

fn found(alloc: Global, row: &Row) -> Result<Classed, NoMemory> {
    let (class, kind, place, feature, context) = *row;
    with_steps(
        alloc,
        class,
        kind,
        place,
        feature.as_bytes(),
        context.as_bytes(),
    )
}

// A feature at a place behind some Base64 steps.
fn with_steps(
    alloc: Global,
    class: Class,
    kind: Kind,
    (top, steps): (u64, u64),
    feature: &[u8],
    context: &[u8],
) -> Result<Classed, NoMemory> {
    let item = Feature {
        kind,
        path: path(alloc, top, steps)?,
        feature: Bytes::copy(alloc, feature)?,
        context: Bytes::copy(alloc, context)?,
    };
    Ok(Classed { class, item })
}

// URLs and domains of all classes, and a plain feature of each other kind.
const FOUND: &[Row] = &[
    (
        Class::Plain,
        Kind::Url,
        (4, 0),
        "http://a.b",
        "(http://a.b)\n",
    ),
    (Class::Plain, Kind::Domain, (11, 0), "a.b", "//a.b)\n"),
    (
        Class::Stopped,
        Kind::Url,
        (20, 0),
        "http://c.d",
        "http://c.d",
    ),
    (Class::Stopped, Kind::Domain, (27, 0), "c.d", "//c.d"),
    (Class::Alert, Kind::Url, (40, 0), "ftp://e", "<ftp://e\\"),
    (Class::Alert, Kind::Domain, (46, 0), "e", "//e\t"),
    (Class::Plain, Kind::Ip, (50, 0), "1.2.3.4", ""),
    (Class::Alert, Kind::Ether, (50, 0), "01:02:03:04:05:06", ""),
    (Class::Plain, Kind::Exec, (60, 0), "exec", ""),
    (Class::Plain, Kind::Unread, (60, 0), "unread", ""),
    (Class::Alert, Kind::Find, (60, 0), "find", ""),
    (Class::Plain, Kind::Word, (60, 0), "word", ""),
    (Class::Plain, Kind::Url, (100, 1), "http://a.b", ""),
];

fn features(alloc: Global) -> Result<Vec<Classed>, NoMemory> {
    let mut items = Vec::new(alloc);
    for row in FOUND {
        items.push(found(alloc, row)?)?;
    }
    Ok(items)
}

// Sets a file of a disk that isn't mounted.
fn set(disk: &mut MemDisk, file: u32, text: &str) -> Result<(), NoMemory>
    requires file { file < 64 }
    requires fresh { mem_mounted disk.old ≡ false }
    ensures { mem_mounted disk.new ≡ false }
{
    if text.len() > 100 {
        return Err(NoMemory);
    }
    disk.set_file(file, text.as_bytes())
}

// The bytes of an old histogram, which are more than each that these tests write in its place.
const OLD: &str =
    "an old histogram of some other run, longer than each of those that the tests write in its place...\n";

// A disk that isn't mounted, with bytes in files of a report and in one of no report.
fn filled(alloc: Global) -> Result<MemDisk, NoMemory>
    ensures { IfOk result (λ disk. mem_mounted disk ≡ false) }
{
    let mut disk = MemDisk::make(alloc);
    set(&mut disk, 1, "first")?;
    set(&mut disk, 2, "second")?;
    set(&mut disk, 3, "third")?;
    set(&mut disk, 21, OLD)?;
    set(&mut disk, 26, OLD)?;
    set(&mut disk, 40, "other")?;
    Ok(disk)
}

// The same, mounted; the named calls fail.
fn mounted(alloc: Global, fails: &[u64]) -> Result<MemDisk, DiskFault>
    ensures { IfOk result (λ disk. mem_mounted disk ≡ true) }
{
    let mut disk = filled(alloc)?;
    disk.fail_calls(fails)?;
    disk.mount("place")?;
    Ok(disk)
}

// The same after a report was written to it, and how that ended.
fn published(
    alloc: Global,
    items: &[Classed],
    scanners: u16,
    fails: &[u64],
) -> Result<(MemDisk, Result<(), PublishFault>), DiskFault> {
    let mut disk = mounted(alloc, fails)?;
    let result = publish_items(alloc, &mut disk, items, scanners);
    Ok((disk, result))
}

// A file of the disk has this text.
fn file_is(disk: &MemDisk, number: u32, text: &str) -> bool {
    number < 64 && disk.file(number) == text.as_bytes()
}

// The files of these numbers have these texts.
fn files_are(disk: &MemDisk, texts: &[(u32, &str)]) -> bool {
    texts
        .iter()
        .all(|(number, text)| file_is(disk, *number, text))
}
