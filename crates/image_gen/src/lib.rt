//! Images to try a scan on: a seed and a size give an image whose features are known, the same on every
//! machine. It is blocks of 4,096 bytes, of eight kinds by turns: text, Base64, UTF-16, hexadecimal digits
//! and a network packet, each with an address that the seed's random words choose, the fronts of an ELF
//! program and of a gzip file, and a block of zeros. Behind what it holds, a block is zeros.
//!
//! `specs/Image.antt` says which image a seed and a size have, over the blocks of `specs/Blocks.antt`, the
//! packet of `specs/Packet.antt` and the random words of `specs/Words.antt`.
//!
//! The promise: [`image_of_seed`] gives that image, or answers want of memory.
#![tactic(auto)]

mod block;
mod image;
mod kind;
mod packet;
mod url;

pub use image::{IMAGE_MOST, image_of_seed};

#[cfg(test)]
mod tests;
