// The line of a feature file, read back. Two TABs keep its parts apart: no path and no escape has one.
ghost use Rattle.std.specs.Prelude.{ℕ, ◌≤◌, List, length, IfSome, IfNone, IfOk};
ghost use Rattle.forensic_path.specs.Grammar.{HasText};
ghost use Rattle.feature_file.specs.Lines.{HasNoTab, IsCutAtTab, IsLine, IsNoLine, IsNoPath, IsReadAs};

use byte_kit::{Bytes, NoMemory};
use feature_escape::unescape_strict;
use forensic_path::{Path, PathFault, STEPS_MOST, path_read};
use std::alloc::Global;

// What stands between the parts of a line.
const TAB: u8 = b'\t';

/// What a line of a feature file says: where the feature stands, its bytes, and the bytes around it.
#[derive(Drop)]
pub struct Line {
    pub path: Path,
    pub feature: Bytes,
    pub context: Bytes,
}

/// Reads a line of a feature file, given without the LF at its end. `None` exactly where the text is the
/// line of no path of at most [`STEPS_MOST`] steps with a feature and a context: so of a header's line, and
/// of a line with a CR at its end. Its one refusal is want of memory.
pub fn read_line(alloc: Global, line: &[u8]) -> Result<Option<Line>, NoMemory>
    ensures some { IfOk result (λ read. IfSome read (λ l. IsLine l.path l.feature l.context line.now)) }
    ensures none { IfOk result (λ read. IfNone read (IsNoLine line.now)) }

    // The path, feature and context that have this line are those that are read.
    ensures back { (path : Path) (feature context : List ℕ) → IsLine path feature context line.now
        → IfOk result (IsReadAs path feature context) }
{
    let Some((place, rest)) = cut_at_tab(line) else {
        return Ok(None);
    };
    let Some((text, around)) = cut_at_tab(rest) else {
        return Ok(None);
    };
    let Some(path) = read_path(alloc, place)? else {
        return Ok(None);
    };
    let Some(feature) = unescape_strict(alloc, text)? else {
        return Ok(None);
    };
    let Some(context) = unescape_strict(alloc, around)? else {
        return Ok(None);
    };
    Ok(Some(Line {
        path,
        feature,
        context,
    }))
}

// The path of a text, or `None` exactly where no path of at most `STEPS_MOST` steps has it.
fn read_path(alloc: Global, text: &[u8]) -> Result<Option<Path>, NoMemory>
    ensures text { IfOk result (λ read. IfSome read (λ path. HasText path text.now)) }
    ensures few { IfOk result (λ read. IfSome read (λ path. length path.steps ≤ STEPS_MOST)) }
    ensures none { IfOk result (λ read. IfNone read (IsNoPath text.now)) }
{
    match path_read(alloc, text) {
        Ok(path) => Ok(Some(path)),
        Err(PathFault::NoMemory) => Err(NoMemory),
        Err(_) => Ok(None),
    }
}

// The bytes ahead of the first TAB, and those behind it.
fn cut_at_tab(text: &[u8]) -> Option<(&[u8], &[u8])>
    ensures some { IfSome result (λ cut. IsCutAtTab text.now cut.0.now cut.1.now) }
    ensures none { IfNone result (HasNoTab text.now) }
{
    let at = text.iter().position(|byte| *byte == TAB)?;
    let (front, rest) = text.split_at(at);
    Some((front, rest.split_at(1).1))
}
