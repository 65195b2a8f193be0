//! URLs, and the domains in them, as each place's Look shows them, and the search of a buffer for both.
//!
//! The promise: a length call answers the shape of `specs/Url.antt` or `specs/Domain.antt`, and None
//! exactly where it doesn't stand. `find_urls` appends exactly the marks of `specs/Marks.antt` of the
//! places that the buffer owns.
#![tactic(auto)]

mod domain;
mod find;
mod url;

pub use domain::domain_len;
pub use find::find_urls;
pub use url::{HOST_MOST, URL_MOST, url_len};

#[cfg(test)]
mod tests;
