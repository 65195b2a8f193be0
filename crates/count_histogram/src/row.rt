// A row of a histogram, and its line.
ghost use Rattle.std.specs.Prelude.{◌≡◌, ◌++◌, take, vec_len, IfOk, OnOk, OnErr};
ghost use Rattle.count_histogram.specs.Histogram.{row_line_of};

use byte_kit::{Bytes, NoMemory, dec_into};
use feature_escape::escape_into;
use std::alloc::Global;

/// What is counted, and how often it stands in the list.
#[derive(Drop)]
pub struct Row {
    pub count: u64,
    pub item: Bytes,
}

/// The line of a row: `n=`, the count in decimal, TAB, and the escaped item. There is no LF at its end.
/// The one refusal is want of memory.
pub fn row_line(alloc: Global, row: &Row) -> Result<Bytes, NoMemory>
    ensures { IfOk result (λ line. line ≡ row_line_of row.now) }
{
    let mut line = Vec::new(alloc);
    row_line_into(row, &mut line)?;
    Ok(Bytes::from(line))
}

/// Appends the line of a row, as [`row_line`] gives it. The one refusal is want of memory, which leaves
/// the items as they were.
pub fn row_line_into(row: &Row, into: &mut Vec<u8>) -> Result<(), NoMemory>
    ensures appended { OnOk result (into.new.items ≡ into.old.items ++ row_line_of row.now) }
    ensures same { OnErr result (into.new.items ≡ into.old.items) }
{
    let held = into.len();
    if let Err(refusal) = push_row_line(row, into) {
        into.truncate(held);
        return Err(refusal);
    }
    Ok(())
}

// Appends the line, or for want of memory some front of it.
#[tactic(auto, unfolding(crate::specs::Histogram::row_line_of))]
fn push_row_line(row: &Row, into: &mut Vec<u8>) -> Result<(), NoMemory>
    ensures appended { OnOk result (into.new.items ≡ into.old.items ++ row_line_of row.now) }
    ensures front { take (vec_len into.old) into.new.items ≡ into.old.items }
{
    into.extend_from_slice(b"n=")?;
    dec_into(row.count, into)?;
    into.extend_from_slice(b"\t")?;
    escape_into(row.item.as_slice(), into)
}
