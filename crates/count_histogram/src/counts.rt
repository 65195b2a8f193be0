// How often each item was added, by a map from items to their counts.
ghost use Rattle.std.specs.Prelude.{◌≡◌, ℕ, List, [], ◌∷◌, ◌++◌, ◌<◌, ◌^◌, IfOk, IsOk, OnOk, OnErr};
ghost use Rattle.std.specs.Ordering.{is_lt};
ghost use Rattle.count_histogram.specs.Histogram.{is_ahead, rows_of};
ghost use Rattle.count_histogram.specs.Counts.{count_in, AreCounts, IsTally};

use crate::Row;
use byte_kit::{Bytes, NoMemory};
use std::alloc::Global;
use std::cmp::Ordering;
use std::collections::HashMap;
use std::hash::{BuildHasherDefault, FoldHasher};
use std::marker::Model;

/// How often each item was added. It keeps one copy of each item, and contracts see it as the rows of the
/// items in no certain order.
#[derive(Drop)]
pub struct Counts {
    alloc: Global,
    counts: HashMap<Vec<u8>, u64, BuildHasherDefault<FoldHasher>>,
}

impl Model for Counts {
    ghost use Rattle.std.specs.Prelude.{List};
    ghost use Rattle.count_histogram.specs.declared.row.Row.{Row};

    ghost Value = { List Row };

    ghost use Rattle.count_histogram.specs.Counts.{rows_kept, AreAdded};

    ghost view = { λ c. rows_kept c.counts.entries };

    ghost invariant = { λ c. AreAdded c.counts.entries };
}

impl Counts {
    /// No item, which takes no memory.
    pub fn make(alloc: Global) -> Counts
        ensures { AreCounts result [] }
    {
        Counts {
            alloc,
            counts: HashMap::new(alloc),
        }
    }

    /// Counts an item once more. Counts of the items of a list become those of the list with this item at
    /// its end. It asks for fewer than 2^63 copies of the item so far, as there are where fewer than 2^63 items
    /// were added. The one refusal is want of memory, which leaves the counts as they were. An item that was
    /// added before takes no memory, and is never refused.
    pub fn add(&mut self, item: &[u8]) -> Result<(), NoMemory>
        requires { count_in self.old item.now < 2 ^ 63 }
        ensures added { OnOk result ((items : List (List ℕ)) → AreCounts self.old items → AreCounts self.new (items ++ item.now ∷ [])) }
        ensures same { OnErr result (self.new ≡ self.old) }
        ensures known { 0 < count_in self.old item.now → IsOk result }
    {
        if let Some(count) = self.counts.get_mut(item) {
            *count += 1;
            return Ok(());
        }
        let key = Vec::from_slice(self.alloc, item)?;
        self.counts.insert(key, 1)?;
        Ok(())
    }

    /// The rows of the items that were added: one for each item, the largest count first, and of equal
    /// counts the smallest bytes first. The one refusal is want of memory.
    pub fn rows(&self) -> Result<Vec<Row>, NoMemory>
        ensures { IfOk result (λ rows. (items : List (List ℕ)) → AreCounts self.now items → rows.items ≡ rows_of items) }
    {
        let mut rows = self.copied()?;
        rows.sort_unstable_by(order);
        Ok(rows)
    }

    // The rows in no certain order.
    fn copied(&self) -> Result<Vec<Row>, NoMemory>
        ensures same { IfOk result (λ rows. rows.items ≡ self.now) }
        ensures tally { OnOk result (IsTally self.now) }
    {
        let mut rows = Vec::with_capacity(self.alloc, self.counts.len())?;
        for (item, count) in self.counts.iter() {
            rows.push(Row {
                count: *count,
                item: Bytes::copy(self.alloc, item.as_slice())?,
            })?;
        }
        Ok(rows)
    }
}

// Which of two rows is ahead.
#[tactic(auto, using(crate::proofs::Ahead::ahead))]
fn order(a: &Row, b: &Row) -> Ordering
    ensures { is_lt result ≡ is_ahead a.now b.now }
{
    match b.count.cmp(&a.count) {
        Ordering::Equal => a.item.as_slice().cmp(b.item.as_slice()),
        other => other,
    }
}
