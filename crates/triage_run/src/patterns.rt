// The patterns of a scan, built by the kit.
ghost use Rattle.std.specs.Prelude.{◌≡◌, ◌≤◌, length, map, IfOk, IfErr, OnOk, IsTrue};
ghost use Rattle.triage_run.specs.Kept.{KeepsKit};
ghost use Rattle.triage_run.specs.Patterns.{MayBuild, AreRead, IsBuildEnd};
ghost use Rattle.scan_find.specs.declared.TheConstants.{PATTERNS_MOST};

use crate::status::Status;
use byte_kit::Name;
use pattern_kit::{Kit, KitFault, Matcher};
use std::alloc::Global;

/// Builds a matcher of each pattern, once and in order. The first pattern that is refused ends it.
pub fn build_matchers<K: Kit>(
    alloc: Global,
    kit: &mut K,
    patterns: &[Name],
) -> Result<Vec<K::M>, Status>
    requires few { length patterns.now ≤ PATTERNS_MOST }
    requires asked { MayBuild (K.may_build kit.old) patterns.now }
    ensures kit { KeepsKit K.may_build K.refusals kit.old kit.new }
    ensures read { IfOk result (λ matchers. AreRead K.M.reads patterns.now (map K.M.reading matchers.items)) }
    ensures sure { OnOk result (K.refusals kit.new ≡ K.refusals kit.old) }
    ensures cause { IfErr result (IsBuildEnd (K.refusals kit.old) (K.refusals kit.new)) }
{
    let mut matchers = Vec::new(alloc);
    for index in 0..patterns.len() {
        let text = patterns[index].as_str();
        let matcher = build_one(alloc, kit, index as u32, text)?;
        let Ok(()) = matchers.push(matcher) else {
            return Err(Status::NoMemory);
        };
    }
    Ok(matchers)
}

// Builds the matcher of one pattern.
fn build_one<K: Kit>(alloc: Global, kit: &mut K, index: u32, text: &str) -> Result<K::M, Status>
    requires asked { IsTrue (K.may_build kit.old index text.now) }
    ensures kit { KeepsKit K.may_build K.refusals kit.old kit.new }
    ensures read { IfOk result (λ matcher. K.M.reads text.now (K.M.reading matcher)) }
    ensures sure { OnOk result (K.refusals kit.new ≡ K.refusals kit.old) }
    ensures cause { IfErr result (IsBuildEnd (K.refusals kit.old) (K.refusals kit.new)) }
{
    match kit.build(alloc, index, text) {
        Ok(matcher) => Ok(matcher),
        Err(KitFault::Refused) => Err(Status::PatternRefused { index }),
        Err(KitFault::NoMemory) => Err(Status::NoMemory),
    }
}
