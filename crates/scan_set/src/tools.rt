// What a scan keeps from one buffer to the next.
ghost use Rattle.std.specs.Prelude.{◌≡◌, ◌<◌, ◌≤◌, length, IfOk};
ghost use Rattle.scan_find.specs.declared.TheConstants.{PATTERNS_MOST};
ghost use Rattle.scan_set.specs.declared.plan.TheConstants.{DEPTH_MOST};

use crate::ScanPlan;
use crate::level::Level;
use crate::nest::Run;
use crate::plan::DEPTH_MOST;
use byte_kit::NoMemory;
use sbuf_nest::Trail;
use scan_find::{Matcher, PATTERNS_MOST};
use std::alloc::Global;
use std::marker::Model;

// How many levels a scan has at most: that of the buffer itself, and one for each of those within it.
const LEVELS: usize = DEPTH_MOST as usize + 1;

/// The matchers of a plan's patterns, and for each level of nested buffers the lists and the decoded bytes
/// that a scan fills and clears, kept from one buffer to the next so that none is made anew. Contracts see
/// the matchers alone, in the order of the patterns. What the rest holds between two scans is of no use
/// to anyone: a scan clears it first, also after one that was refused.
#[derive(Drop)]
pub struct Tools<M: Matcher> {
    pub(crate) run: Run<M>,
    // A level for the buffer itself, and one for each of those within it.
    pub(crate) levels: Vec<Level>,
}

impl<M: Matcher> Model for Tools<M> {
    ghost use Rattle.std.specs.Prelude.{◌≡◌, ◌<◌, ◌≤◌, List, length};
    ghost use Rattle.scan_find.specs.declared.TheConstants.{PATTERNS_MOST};
    ghost use Rattle.scan_set.specs.declared.plan.TheConstants.{DEPTH_MOST};

    ghost Value = { List M };

    ghost view = { λ tools. tools.run.matchers.items };

    ghost invariant = { λ tools. (length tools.run.matchers.items ≤ PATTERNS_MOST) × (DEPTH_MOST < length tools.levels.items) × (tools.run.trail.limit ≡ DEPTH_MOST) };
}

impl<M: Matcher> Tools<M> {
    /// The tools of scans by a plan, with the matchers of its patterns in their order. It asks for at
    /// most `PATTERNS_MOST` of them. Its one refusal is want of memory.
    pub fn make(alloc: Global, _plan: &ScanPlan, matchers: Vec<M>) -> Result<Tools<M>, NoMemory>
        requires patterns { length matchers.items ≤ PATTERNS_MOST }
        ensures { IfOk result (λ tools. tools ≡ matchers.items) }
    {
        let trail = Trail::make(alloc, DEPTH_MOST)?;
        let levels = make_levels(alloc)?;
        Ok(Tools {
            run: Run {
                alloc,
                matchers,
                trail,
                out: Vec::new(alloc),
            },
            levels,
        })
    }
}

// A level for a buffer, and one for each of those within it.
fn make_levels(alloc: Global) -> Result<Vec<Level>, NoMemory>
    ensures { IfOk result (λ levels. DEPTH_MOST < length levels.items) }
{
    let mut levels = Vec::new(alloc);
    for depth in 0..LEVELS {
        levels.push(Level::make(alloc))?;
    }
    Ok(levels)
}
