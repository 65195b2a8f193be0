// The scan of a buffer.
ghost use Rattle.std.specs.Prelude.{◌≡◌, ◌-◌, [], map, IfOk};
ghost use Rattle.scan_set.specs.Here.{owned};
ghost use Rattle.scan_set.specs.Lawful.{IsLawful};

use crate::nest::scan_level;
use crate::{ScanPlan, Tools};
use byte_kit::NoMemory;
use forensic_path::Feature;
use sbuf_nest::Sbuf;
use scan_find::Matcher;
use std::mem;

/// The features of the places that the buffer owns (`owned` of `specs/Here.antt`), in order of place. At
/// one place its own come first, in the order of `Kind`, then those in the bytes that are decoded there, and
/// those of its view last. Each has its path in the image, and as its context up to `plan.context` bytes
/// of its buffer on either side of it. The patterns are those that the matchers of the tools were made of.
/// It asks for a plan that is lawful (`IsLawful`). Its one refusal is want of memory. The tools can be used
/// again, also after that.
pub fn scan_owned<M: Matcher>(
    sb: &Sbuf,
    plan: &ScanPlan,
    tools: &mut Tools<M>,
) -> Result<Vec<Feature>, NoMemory>
    requires lawful { IsLawful plan.now }
    ensures same { map M.reading tools.new ≡ map M.reading tools.old }
    ensures made { IfOk result (λ features. features.items ≡ owned (map M.matches (map M.reading tools.old)) plan.now plan.now.depth [] sb.now.bytes.now sb.now.base sb.now.own_from (sb.now.own_to - sb.now.own_from)) }
{
    let run = &mut tools.run;
    run.trail.clear();
    run.out.clear();
    scan_level(sb, plan.depth, plan, run, tools.levels.as_mut_slice())?;
    Ok(mem::replace(&mut run.out, Vec::new(run.alloc)))
}
