// The features of a page.
ghost use Rattle.std.specs.Prelude.{◌≡◌, ◌+◌, ◌-◌, ◌^◌, ◌<◌, ◌≤◌, ◌++◌, [], length, map, IfOk, OnOk, IfSome};
ghost use Rattle.image_source.specs.Faults.{IsPartsCall};
ghost use Rattle.image_source.specs.Image.{joined, size_of};
ghost use Rattle.scan_set.specs.Here.{owned};
ghost use Rattle.scan_set.specs.Lawful.{IsLawful};
ghost use Rattle.page_split.specs.Features.{page_list};
ghost use Rattle.page_split.specs.Pages.{IsPage};
ghost use Rattle.page_split.specs.Pieces.{IsPiece};

use crate::{Pages, Window};
use forensic_path::Feature;
use host_source::Source;
use image_source::{Parts, PartsFault};
use sbuf_nest::{LOOK_AFTER, LOOK_BEFORE, Sbuf};
use scan_find::Matcher;
use scan_set::{ScanPlan, Tools, scan_owned};
use std::alloc::Global;

/// Why the features of a page were not found: the source failed, and has counted a fault, or the allocator
/// had no room.
pub type PageFault = PartsFault;

// How many places of a page are scanned before more bytes are read: as many as, with the bytes around them,
// stay in the second level of the processor's cache.
const PIECE_BYTES: u64 = 262_144;

/// The features that begin in a page (`page_list` of `specs/Features.antt`), in order of place: all features
/// of the image whose place in the image is one of the page's, wherever they end. It asks for a lawful plan
/// (`IsLawful`), for the pages of this image, and for a page below their count. Its refusals are a fault of
/// the source, which comes only where the source counted one, and want of memory. The image and the tools
/// can be used again after both.
pub fn page_features<S: Source, M: Matcher>(
    alloc: Global,
    image: &mut Parts<S>,
    pages: &Pages,
    page: u64,
    plan: &ScanPlan,
    tools: &mut Tools<M>,
) -> Result<Vec<Feature>, PageFault>
    requires lawful { IsLawful plan.now }
    requires size { pages.now.size ≡ size_of image.old.parts }
    requires page { IsPage pages.now.size pages.now.page page }
    ensures nature { S.nature image.new.source ≡ S.nature image.old.source }
    ensures parts { image.new.parts ≡ image.old.parts }
    ensures same { map M.reading tools.new ≡ map M.reading tools.old }
    ensures made { IfOk result (λ features. IfSome (joined (S.nature image.old.source) image.old.parts) (λ bytes.
        features.items ≡ page_list (map M.matches (map M.reading tools.old)) plan.now bytes pages.now.page page)) }
    ensures cause { IsPartsCall (S.faults image.old.source) (S.faults image.new.source) result }
{
    // What this page has in common with the last one is read again: a fault is one of the page at hand.
    image.unload();
    let size = image.size();
    prove!(pages.size == size);
    let window = pages.window(page);
    let mut features = Vec::new(alloc);
    let mut next = window.own_from;
    while next < window.own_to {
        let to = (next + PIECE_BYTES).min(window.own_to);
        add_piece(image, &window, next, to, plan, tools, &mut features)?;
        next = to;
    }
    Ok(features)
}

// Appends the features of the places from `next` up to `to` of the window's own.
fn add_piece<S: Source, M: Matcher>(
    image: &mut Parts<S>,
    window: &Window,
    next: u64,
    to: u64,
    plan: &ScanPlan,
    tools: &mut Tools<M>,
    features: &mut Vec<Feature>,
) -> Result<(), PageFault>
    requires lawful { IsLawful plan.now }
    requires piece { IsPiece (size_of image.old.parts) window.now next to }
    requires small { size_of image.old.parts < 2 ^ 63 }
    requires told { IfSome (joined (S.nature image.old.source) image.old.parts) (λ bytes. size_of image.old.parts ≡ length bytes) }
    ensures nature { S.nature image.new.source ≡ S.nature image.old.source }
    ensures parts { image.new.parts ≡ image.old.parts }
    ensures same { map M.reading tools.new ≡ map M.reading tools.old }
    ensures made { OnOk result (IfSome (joined (S.nature image.old.source) image.old.parts) (λ bytes.
        features.new.items ≡ features.old.items ++ owned (map M.matches (map M.reading tools.old)) plan.now plan.now.depth [] bytes 0 next (to - next))) }
    ensures cause { IsPartsCall (S.faults image.old.source) (S.faults image.new.source) result }
{
    let from = next.saturating_sub(LOOK_BEFORE as u64).max(window.from);
    let end = (to + LOOK_AFTER as u64).min(window.to);
    image.load(from, end)?;
    let piece = Sbuf::of(
        image.window(),
        (next - from) as usize,
        (to - from) as usize,
        from,
    );
    let mut found = scan_owned(&piece, plan, tools)?;
    features.append(&mut found)?;
    Ok(())
}
