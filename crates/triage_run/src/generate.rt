// The scan of an image that is made.
ghost use Rattle.std.specs.Prelude.{◌≡◌, ◌≤◌, ◌∷◌, [], codes, length, map, IfOk, IfErr, OnOk};
ghost use Rattle.image_gen.specs.declared.image.TheConstants.{IMAGE_MOST};
ghost use Rattle.report_publish.specs.declared.publish.TheConstants.{FEATURE_FILES};
ghost use Rattle.scan_find.specs.declared.TheConstants.{PATTERNS_MOST};
ghost use Rattle.triage_run.specs.Case.{case_made};
ghost use Rattle.triage_run.specs.Kept.{KeepsKit};
ghost use Rattle.triage_run.specs.Made.{FindsMade};
ghost use Rattle.triage_run.specs.Patterns.{MayBuild, IsBuildEnd};
ghost use Rattle.triage_run.specs.Text.{counts_of};
ghost use Rattle.triage_run.specs.Words.{IsSearch};

use crate::patterns::build_matchers;
use crate::scan::{ScanEnd, scan_image};
use crate::status::Status;
use crate::summary::Summary;
use crate::words::{Generate, ListNames, Scan, Search};
use byte_kit::{Name, Names, NoMemory};
use host_disk::SureDisk;
use host_source::SureSource;
use image_gen::{IMAGE_MOST, image_of_seed};
use pattern_kit::{Kit, Matcher};
use std::alloc::Global;
use stop_lists::Lists;

// The name of the image in its source, and the folder on the disk in memory, which nobody else sees.
const IMAGE: &str = "generated";

const OUT: &str = "report";

/// Builds the patterns, makes the image, scans it, and gives what was found, or the refusal. The image and the disk
/// with its report are gone behind the call.
pub fn generate<K: Kit>(alloc: Global, made: Generate, kit: &mut K) -> Result<Summary, Status>
    requires search { IsSearch made.search }
    requires size { made.size ≤ IMAGE_MOST }
    requires asked { MayBuild (K.may_build kit.old) made.search.plan.patterns }
    ensures kit { KeepsKit K.may_build K.refusals kit.old kit.new }
    ensures found { IfOk result (FindsMade K.M.reads K.M.matches made) }
    ensures sure { OnOk result (K.refusals kit.new ≡ K.refusals kit.old) }
    ensures cause { IfErr result (IsBuildEnd (K.refusals kit.old) (K.refusals kit.new)) }
{
    let matchers = build_matchers(alloc, kit, made.search.plan.patterns.items())?;
    match scan_made(alloc, made, matchers) {
        Ok(found) => Ok(found),
        Err(NoMemory) => Err(Status::NoMemory),
    }
}

// Makes the image, and scans it by the matchers of its patterns, from a source and into a disk that never fail. The one
// refusal is want of memory.
fn scan_made<M: Matcher>(
    alloc: Global,
    made: Generate,
    matchers: Vec<M>,
) -> Result<Summary, NoMemory>
    requires search { IsSearch made.search }
    requires size { made.size ≤ IMAGE_MOST }
    requires few { length matchers.items ≤ PATTERNS_MOST }
    ensures { IfOk result (λ found. found ≡ counts_of M.matches FEATURE_FILES (case_made (map M.reading matchers.items) made)) }
{
    let image = image_of_seed(alloc, made.seed, made.size)?;
    let no_lists = Lists::read(alloc, b"", b"")?;
    let scan = scan_of_made(alloc, made.search)?;
    let source = SureSource::of(IMAGE, image.as_slice());
    let mut disk = SureDisk::make(alloc);
    let ScanEnd { found, .. } = scan_image(alloc, &scan, &no_lists, matchers, source, &mut disk);
    match found {
        Ok(found) => Ok(found),
        Err(_) => Err(NoMemory),
    }
}

// The scan of an image that is made.
fn scan_of_made(alloc: Global, search: Search) -> Result<Scan, NoMemory>
    ensures search { IfOk result (λ scan. scan.search ≡ search) }
    ensures parts { IfOk result (λ scan. scan.parts ≡ codes "generated" ∷ []) }
{
    let mut parts = Names::make(alloc);
    parts.add(Name::copy(alloc, IMAGE)?)?;
    let lists = ListNames {
        stop: None,
        alert: None,
    };
    let out = Name::copy(alloc, OUT)?;
    Ok(Scan {
        search,
        lists,
        parts,
        out,
    })
}
