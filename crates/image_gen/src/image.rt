// The whole image: its blocks in order, cut at the size.
ghost use Rattle.std.specs.Prelude.{◌≡◌, ◌≤◌, length, IfOk};
ghost use Rattle.image_gen.specs.Image.{image_of};

use crate::block::{BLOCK_SIZE, push_block};
use byte_kit::NoMemory;
use rand_core::SeedableRng;
use rand_core::utils::NextWord;
use rand_xoshiro::SplitMix64;
use std::alloc::Global;

/// How many bytes the largest image has: 64 MiB.
pub const IMAGE_MOST: u64 = 67_108_864;

/// The image of a seed with so many bytes, at most [`IMAGE_MOST`]. Its one refusal is want of memory.
pub fn image_of_seed(alloc: Global, seed: u64, size: u64) -> Result<Vec<u8>, NoMemory>
    requires { size ≤ IMAGE_MOST }
    ensures image { IfOk result (λ image. image.items ≡ image_of seed size) }
    ensures size { IfOk result (λ image. length image.items ≡ size) }
{
    let size = size as usize;
    let count = size.div_ceil(BLOCK_SIZE);
    let mut image = Vec::with_capacity(alloc, count * BLOCK_SIZE)?;
    let mut words = SplitMix64::seed_from_u64(seed);
    for number in 0..count {
        push_block(number, words.next_word(), &mut image)?;
    }
    image.truncate(size);
    Ok(image)
}
