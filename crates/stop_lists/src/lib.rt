//! Stop lists and alert lists: what the user has to say of features. A stop list sends the features
//! that its entries meet to files of their own; an alert list names those that are shown apart, and
//! it beats the stop list.
//!
//! Every sequence of bytes is a list, and a feature file is one too. `specs/Lists.antt` says which
//! entries a list has, and which class a feature has under two lists.
//!
//! The promise: [`Lists::read`] reads the entries of two lists, and [`Lists::class_of`] answers the
//! class of a feature in its context under them, without taking memory. `specs/Buckets.antt` says how an
//! entry is found.
#![tactic(auto)]

mod buckets;
mod entries;
mod hash;
mod line;
mod lists;
mod table;

pub use lists::Lists;

#[cfg(test)]
mod tests;
