// What is found in an image, page by page, each feature with its class.
ghost use Rattle.std.specs.Prelude.{◌≡◌, ◌≤◌, ◌++◌, length, map, IfOk, OnOk, IfErr, IfSome};
ghost use Rattle.image_source.specs.Image.{joined, size_of};
ghost use Rattle.scan_find.specs.declared.TheConstants.{PATTERNS_MOST};
ghost use Rattle.scan_set.specs.Lawful.{IsLawful};
ghost use Rattle.triage_run.specs.Find.{IsFindCause};
ghost use Rattle.triage_run.specs.Image.{items_under};
ghost use Rattle.triage_run.specs.Lists.{classed_under};

use byte_kit::NoMemory;
use forensic_path::{Classed, Feature};
use host_source::Source;
use image_source::{Parts, PartsFault};
use page_split::{Pages, page_features};
use pattern_kit::Matcher;
use scan_set::{ScanPlan, Tools};
use std::alloc::Global;
use stop_lists::Lists;

/// Why the features of an image were not found.
#[derive(Clone, Copy, Debug, PartialEq, Eq)]
pub enum FindFault {
    /// The source failed while the page of this number was read, and has counted a fault.
    Page(u64),
    /// The allocator had no room.
    NoMemory,
}

impl From<NoMemory> for FindFault {
    ghost use Rattle.std.specs.Prelude.{◌≡◌};
    ghost use Rattle.triage_run.specs.declared.find.FindFault.{FindFault};

    ghost from_gives = { λ _ fault. fault ≡ FindFault.NoMemory };

    fn from(_: NoMemory) -> Self {
        FindFault::NoMemory
    }
}

/// The features of an image, each with its class by the lists: those of the first page, behind them those of the second,
/// and so on. One page's features at a time stand beside the list of all.
pub fn find_items<S: Source, M: Matcher>(
    alloc: Global,
    image: &mut Parts<S>,
    pages: &Pages,
    plan: &ScanPlan,
    lists: &Lists,
    matchers: Vec<M>,
) -> Result<Vec<Classed>, FindFault>
    requires plan { IsLawful plan.now }
    requires few { length matchers.items ≤ PATTERNS_MOST }
    requires size { pages.now.size ≡ size_of image.old.parts }
    requires told { IfSome (joined (S.nature image.old.source) image.old.parts) (λ bytes. pages.now.size ≡ length bytes) }
    ensures nature { S.nature image.new.source ≡ S.nature image.old.source }
    ensures parts { image.new.parts ≡ image.old.parts }
    ensures later { S.faults image.old.source ≤ S.faults image.new.source }
    ensures items { IfOk result (λ items. IfSome (joined (S.nature image.old.source) image.old.parts) (λ bytes.
        items.items ≡ items_under lists.now (map M.matches (map M.reading matchers.items)) plan.now bytes)) }
    ensures sure { OnOk result (S.faults image.new.source ≡ S.faults image.old.source) }
    ensures cause { IfErr result (IsFindCause pages.now.size pages.now.page (S.faults image.old.source) (S.faults image.new.source)) }
{
    let mut tools = Tools::make(alloc, plan, matchers)?;
    let mut items = Vec::new(alloc);
    for page in 0..pages.count() {
        let features = match page_features(alloc, image, pages, page, plan, &mut tools) {
            Ok(features) => features,
            Err(PartsFault::Read) => return Err(FindFault::Page(page)),
            Err(PartsFault::NoMemory) => return Err(FindFault::NoMemory),
        };
        class_into(features, lists, &mut items)?;
    }
    Ok(items)
}

// Appends each feature with its class.
fn class_into(
    features: Vec<Feature>,
    lists: &Lists,
    items: &mut Vec<Classed>,
) -> Result<(), NoMemory>
    ensures { OnOk result (items.new.items ≡ items.old.items ++ map (classed_under lists.now) features.items) }
{
    items.reserve(features.len())?;
    for item in features {
        let class = lists.class_of(item.feature.as_slice(), item.context.as_slice());
        items.push(Classed { class, item })?;
    }
    Ok(())
}
