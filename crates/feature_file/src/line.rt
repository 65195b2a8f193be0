// The line of a feature, and the files that it stands in.
ghost use Rattle.std.specs.Prelude.{◌≡◌, ◌++◌, take, vec_len, IfOk, OnOk, OnErr};
ghost use Rattle.feature_file.specs.FeatureFile.{line_of, stands_in};

use byte_kit::{Bytes, NoMemory};
use feature_escape::escape_into;
use forensic_path::{Class, Classed, Path, path_into};
use std::alloc::Global;

/// The number of the file of the alerts.
pub const ALERT_FILE: u32 = 9;

/// What is added to a kind's number for the file of its features that are stopped.
pub const STOPPED_FILES: u32 = 10;

/// Whether a feature has its line in the feature file with this number: that of its kind, or of the
/// stopped ones of its kind where the stop list has it; an alert has a second line in [`ALERT_FILE`].
#[inline]
pub fn stands_in(file: u32, item: &Classed) -> bool
    ensures { result ≡ stands_in file item.now }
{
    let kind = item.item.kind.number();
    match item.class {
        Class::Plain => file == kind,
        Class::Stopped => file == STOPPED_FILES + kind,
        Class::Alert => file == kind || file == ALERT_FILE,
    }
}

/// The line of a feature in a feature file: its path, TAB, the escaped feature, TAB, the escaped context.
/// There is no LF at its end. The one refusal is want of memory.
pub fn line_of(
    alloc: Global,
    path: &Path,
    feature: &[u8],
    context: &[u8],
) -> Result<Bytes, NoMemory>
    ensures { IfOk result (λ line. line ≡ line_of path.now feature.now context.now) }
{
    let mut line = Vec::new(alloc);
    line_into(path, feature, context, &mut line)?;
    Ok(Bytes::from(line))
}

/// Appends the line of a feature, as [`line_of`] gives it. The one refusal is want of memory, which leaves
/// the items as they were.
pub fn line_into(
    path: &Path,
    feature: &[u8],
    context: &[u8],
    into: &mut Vec<u8>,
) -> Result<(), NoMemory>
    ensures appended { OnOk result (into.new.items ≡ into.old.items ++ line_of path.now feature.now context.now) }
    ensures same { OnErr result (into.new.items ≡ into.old.items) }
{
    let held = into.len();
    if let Err(refusal) = push_line(path, feature, context, into) {
        into.truncate(held);
        return Err(refusal);
    }
    Ok(())
}

// Appends the line, or for want of memory some front of it.
#[tactic(auto, unfolding(crate::specs::FeatureFile::line_of))]
fn push_line(
    path: &Path,
    feature: &[u8],
    context: &[u8],
    into: &mut Vec<u8>,
) -> Result<(), NoMemory>
    ensures appended { OnOk result (into.new.items ≡ into.old.items ++ line_of path.now feature.now context.now) }
    ensures front { take (vec_len into.old) into.new.items ≡ into.old.items }
{
    path_into(path, into)?;
    into.extend_from_slice(b"\t")?;
    escape_into(feature, into)?;
    into.extend_from_slice(b"\t")?;
    escape_into(context, into)
}
