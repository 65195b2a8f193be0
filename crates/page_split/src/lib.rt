//! Pages of an image, so that an image of any size is scanned a page at a time. A page owns its places, and
//! their Looks reach into its margins: `Pages` says how many pages there are, which places a page owns, and
//! which bytes its `Window` has. `page_features` reads a page and finds the features that begin in it.
//!
//! A page is scanned as it is read, piece by piece, so that its bytes are still in the processor's cache. Of
//! the window the bytes up to `LOOK_BEFORE` ahead of a piece and `LOOK_AFTER` behind it are held at a time,
//! and each of its bytes is read once.
//!
//! The promise: `page_features` answers exactly the features of the whole image whose place in the image
//! lies in the page (`specs/Features.antt`), whatever the margin. So the lists of all pages, one behind the
//! other, are the features of the image (`pages_join`). The Look of each place in its page's window is its
//! Look in the image (`windows_suffice`).
#![tactic(auto)]

mod laws;
mod page;
mod pages;

pub use laws::{pages_join, windows_suffice};
pub use page::{PageFault, page_features};
pub use pages::{MARGIN_LEAST, MARGIN_MOST, PAGE_LEAST, PAGE_MOST, Pages, Window};

#[cfg(test)]
mod tests;
