// The scan of an image.
ghost use Rattle.std.specs.Prelude.{◌≡◌, ◌≤◌, length, map, Some, Err, IsTrue, true, false, IfOk, OnOk, IfErr, IfSome};
ghost use Rattle.std.specs.Int.{div_ceil};
ghost use Rattle.byte_kit.specs.Counts.{Rose};
ghost use Rattle.host_source.specs.Source.{told};
ghost use Rattle.image_source.specs.Image.{joined, size_of, IsAttachedBelow};
ghost use Rattle.report_publish.specs.Publish.{files_for};
ghost use Rattle.scan_find.specs.declared.TheConstants.{PATTERNS_MOST};
ghost use Rattle.triage_run.specs.Case.{joined as bytes_of};
ghost use Rattle.triage_run.specs.Image.{HasAttached, HasFewPages, items_under, WritesImage, CountsImage, IsImageEnd, IsPagesEnd};
ghost use Rattle.triage_run.specs.Kept.{KeepsSource, KeepsDisk, KeepsOthers};
ghost use Rattle.triage_run.specs.Sources.{IsReady};
ghost use Rattle.triage_run.specs.Status.{scanned_as, IfReadFault, IsAheadOf, IsBehind, IsRefusal};
ghost use Rattle.triage_run.specs.Steps.{attach, pages, mount};
ghost use Rattle.triage_run.specs.Words.{IsScan};

use crate::find::{FindFault, find_items};
use crate::report::write_report;
use crate::status::{ReadPlace, Status};
use crate::summary::Summary;
use crate::words::Scan;
use host_disk::{Disk, DiskFault};
use host_source::Source;
use image_source::{Parts, PartsFault};
use page_split::Pages;
use pattern_kit::Matcher;
use report_publish::PublishFault;
use std::alloc::Global;
use stop_lists::Lists;

/// The most pages of an image that are scanned.
pub const PAGES_MOST: u64 = 1_048_576;

/// How a scan ended: the source that it was handed, and what was found, or the refusal.
#[derive(Drop)]
pub struct ScanEnd<S> {
    pub source: S,
    pub found: Result<Summary, Status>,
}

impl<S> ScanEnd<S> {
    /// A scan that was refused.
    pub fn refused(source: S, refusal: Status) -> ScanEnd<S>
        ensures source { result.source ≡ source }
        ensures found { result.found ≡ Err refusal }
    {
        let found = Err(refusal);
        ScanEnd { source, found }
    }
}

/// Scans an image into the folder of a scan, by its lists and the matchers of its patterns: attaches its parts, counts
/// its pages, mounts the folder, reads page after page, and writes the report.
pub fn scan_image<S: Source, D: Disk, M: Matcher>(
    alloc: Global,
    scan: &Scan,
    lists: &Lists,
    matchers: Vec<M>,
    source: S,
    disk: &mut D,
) -> ScanEnd<S>
    requires scan { IsScan scan.now }
    requires few { length matchers.items ≤ PATTERNS_MOST }
    requires ready { IsReady S.nature S.slots (Some scan.now) source }
    requires unmounted { D.mounted disk.old ≡ false }
    requires out_asked { IsTrue ((D.nature disk.old).may_mount scan.now.out) }
    ensures source { KeepsSource S.nature S.faults source result.source }
    ensures disk { KeepsDisk D.nature D.faults disk.old disk.new }
    ensures untouched { IsAheadOf mount (scanned_as result.found) → disk.new ≡ disk.old }
    ensures slots { IsAttachedBelow (length scan.now.parts) (S.slots result.source) }
    ensures mounted { IsBehind mount (scanned_as result.found) → D.mounted disk.new ≡ true }
    ensures others { KeepsOthers (files_for scan.now.search.plan.scanners) (D.nature disk.old) (D.files disk.old) (D.files disk.new) }
    ensures unwritten { IfReadFault (scanned_as result.found) (D.files disk.new ≡ D.files disk.old) }
    ensures refused { IfErr result.found IsRefusal }
    ensures sure { OnOk result.found ((S.faults result.source ≡ S.faults source) × (D.faults disk.new ≡ D.faults disk.old)) }
    ensures attached { IsBehind attach (scanned_as result.found) → HasAttached (S.slots result.source) scan.now.parts }
    ensures few_pages { IsBehind pages (scanned_as result.found) → HasFewPages
        (record { bytes = bytes_of (told (S.nature source)) scan.now.parts; parts = scan.now.parts; slots = S.slots result.source; page = scan.now.search.page }) }
    ensures report { OnOk result.found (WritesImage scan.now.search.plan.scanners
        (items_under lists.now (map M.matches (map M.reading matchers.items)) scan.now.search.plan)
        (bytes_of (told (S.nature source)) scan.now.parts) (D.nature disk.old).tells (D.files disk.new)) }
    ensures found { IfOk result.found (CountsImage scan.now.search.page
        (items_under lists.now (map M.matches (map M.reading matchers.items)) scan.now.search.plan)
        (bytes_of (told (S.nature source)) scan.now.parts)) }
    ensures cause { IfErr result.found (IsImageEnd
        (record { bytes = bytes_of (told (S.nature source)) scan.now.parts; parts = scan.now.parts; slots = S.slots result.source; page = scan.now.search.page })
        (Rose (S.faults source) (S.faults result.source)) (Rose (D.faults disk.old) (D.faults disk.new))) }
{
    match Parts::attach(alloc, source, scan.parts.items()) {
        Ok(image) => {
            let mut image = image;
            let found = scan_pages(alloc, scan, lists, matchers, &mut image, disk);
            let source = image.into_source();
            ScanEnd { source, found }
        }
        Err((source, PartsFault::Read)) => {
            let place = ReadPlace::Image;
            ScanEnd::refused(source, Status::ReadFault { place })
        }
        Err((source, PartsFault::NoMemory)) => ScanEnd::refused(source, Status::NoMemory),
    }
}

// Counts the pages of an image, mounts the folder of the scan, reads page after page, and writes the report.
fn scan_pages<S: Source, D: Disk, M: Matcher>(
    alloc: Global,
    scan: &Scan,
    lists: &Lists,
    matchers: Vec<M>,
    image: &mut Parts<S>,
    disk: &mut D,
) -> Result<Summary, Status>
    requires scan { IsScan scan.now }
    requires few { length matchers.items ≤ PATTERNS_MOST }
    requires unmounted { D.mounted disk.old ≡ false }
    requires out_asked { IsTrue ((D.nature disk.old).may_mount scan.now.out) }
    ensures nature { S.nature image.new.source ≡ S.nature image.old.source }
    ensures parts { image.new.parts ≡ image.old.parts }
    ensures later { S.faults image.old.source ≤ S.faults image.new.source }
    ensures disk { KeepsDisk D.nature D.faults disk.old disk.new }
    ensures untouched { IsAheadOf mount (scanned_as result) → disk.new ≡ disk.old }
    ensures mounted { IsBehind mount (scanned_as result) → D.mounted disk.new ≡ true }
    ensures others { KeepsOthers (files_for scan.now.search.plan.scanners) (D.nature disk.old) (D.files disk.old) (D.files disk.new) }
    ensures unwritten { IfReadFault (scanned_as result) (D.files disk.new ≡ D.files disk.old) }
    ensures refused { IfErr result IsRefusal }
    ensures sure { OnOk result ((S.faults image.new.source ≡ S.faults image.old.source) × (D.faults disk.new ≡ D.faults disk.old)) }
    ensures size { IfSome (joined (S.nature image.old.source) image.old.parts) (λ bytes. size_of image.old.parts ≡ length bytes) }
    ensures few_pages { IsBehind pages (scanned_as result) → div_ceil (size_of image.old.parts) scan.now.search.page ≤ PAGES_MOST }
    ensures report { OnOk result (WritesImage scan.now.search.plan.scanners
        (items_under lists.now (map M.matches (map M.reading matchers.items)) scan.now.search.plan)
        (joined (S.nature image.old.source) image.old.parts) (D.nature disk.old).tells (D.files disk.new)) }
    ensures found { IfOk result (CountsImage scan.now.search.page
        (items_under lists.now (map M.matches (map M.reading matchers.items)) scan.now.search.plan)
        (joined (S.nature image.old.source) image.old.parts)) }
    ensures cause { IfErr result (IsPagesEnd (size_of image.old.parts) scan.now.search.page
        (Rose (S.faults image.old.source) (S.faults image.new.source)) (Rose (D.faults disk.old) (D.faults disk.new))) }
{
    let search = &scan.search;
    let size = image.size();
    let pages = Pages::make(size, search.page, search.margin);
    let count = pages.count();
    if count > PAGES_MOST {
        return Err(Status::TooManyPages { pages: count });
    }
    match disk.mount(scan.out.as_str()) {
        Ok(()) => {}
        Err(DiskFault::Failed) => return Err(Status::DiskFault),
        Err(DiskFault::NoMemory) => return Err(Status::NoMemory),
    }
    let items = match find_items(alloc, image, &pages, &search.plan, lists, matchers) {
        Ok(items) => items,
        Err(FindFault::Page(page)) => {
            let place = ReadPlace::Page(page);
            return Err(Status::ReadFault { place });
        }
        Err(FindFault::NoMemory) => return Err(Status::NoMemory),
    };
    match write_report(alloc, search, size, items.as_slice(), disk) {
        Ok(found) => Ok(found),
        Err(PublishFault::Disk) => Err(Status::DiskFault),
        Err(PublishFault::NoMemory) => Err(Status::NoMemory),
    }
}
