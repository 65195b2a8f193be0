//! Histograms: how often each item of the features of a kind stands in a list, the most frequent first.
//! An item is what is counted of a feature, as the service of a URL, and a [`Rule`] says which.
//!
//! `specs/Rules.antt` says which rule each histogram has, and which item a feature has by a rule;
//! `specs/Histogram.antt` says which [`Row`]s a list of items has, and in which order they stand.
//!
//! The promise: [`item_of`] is a feature's item ([`item_into`] appends the same). [`Counts`] of items that were
//! added one after another gives exactly the rows of their list, and keeps one copy of each item. A histogram's
//! file is the header of its number, and then [`row_line`] and an LF for each row ([`row_line_into`] appends the
//! same). `specs/Counts.antt` says how counts stand for a list of items.
#![tactic(auto)]

mod counts;
mod item;
mod row;
mod rule;

pub use counts::Counts;
pub use item::{item_into, item_of};
pub use row::{Row, row_line, row_line_into};
pub use rule::Rule;

#[cfg(test)]
mod tests;
