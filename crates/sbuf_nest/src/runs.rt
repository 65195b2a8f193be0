// Runs of bytes of a class, and the search for where they begin.
//
// A run is measured, and the next row is looked for, sixteen bytes at a time. A run that was found is passed
// over once, and in bytes of which few are of the class one mask of strangers passes over sixteen places.
ghost use Rattle.std.specs.Prelude.{◌≡◌, ◌≤◌, ℕ, Bool, not, length, slice_index};
ghost use Rattle.std.specs.List.{prefix_len};
ghost use Rattle.sbuf_nest.specs.Around.{seen};
ghost use Rattle.sbuf_nest.specs.Edges.{begins_run};
ghost use Rattle.sbuf_nest.specs.Runs.{NoRowFrom};
ghost use Rattle.vector_search.specs.Places.{bits_of};
ghost use Rattle.vector_search.specs.declared.rows.TheConstants.{ROW};

use crate::Look;
use std::marker::PhantomData;
use std::simd::prelude::*;
use vector_search::{PlaceTest, next_place};

/// A class of bytes.
pub trait ByteClass {
    /// Whether a byte is of the class.
    ghost holds: { ℕ → Bool };

    /// Whether the byte is of the class.
    fn has(byte: u8) -> bool
        ensures { result ≡ holds byte };

    /// Bit k says whether byte k is of another class.
    fn strangers(bytes: u8x16) -> u64
        ensures { result ≡ bits_of (λ byte. not (holds byte)) bytes };
}

/// No byte of the class stands right ahead of the place.
pub fn begins_run<C: ByteClass>(look: &Look) -> bool
    ensures { result ≡ begins_run C.holds (seen look.now) }
{
    match look.before.last() {
        None => true,
        Some(byte) => !C::has(*byte),
    }
}

/// How many bytes of the class stand in front.
#[inline(always)]
pub fn run_len<C: ByteClass>(bytes: &[u8]) -> usize
    ensures run { result ≡ prefix_len C.holds bytes.now }
    ensures within { result ≤ length bytes.now }
{
    next_place(&strangers_of::<C>(), bytes, 0, bytes.len())
}

/// The end of the run that `next` stands in, which is looked for up to `to`, or `next` where none began ahead
/// of it: no run of the class, however short, begins from `next` up to there.
#[inline(always)]
pub fn past_run<C: ByteClass>(bytes: &[u8], next: usize, to: usize) -> usize
    requires ordered { next ≤ to }
    requires within { to ≤ length bytes.now }
    ensures low { next ≤ result }
    ensures high { result ≤ to }
    ensures none { (least : ℕ) → NoRowFrom C.holds least bytes.now next result }
{
    if next == 0 || !C::has(bytes[next - 1]) {
        return next;
    }
    next_place(&strangers_of::<C>(), bytes, next, to)
}

/// A place from `next` up to `to` ahead of which, from `next` on, no run of at least `ROW` bytes of the class
/// begins: `to`, or a place where so many of them stand in a row.
#[inline(always)]
pub fn next_row<C: ByteClass>(bytes: &[u8], next: usize, to: usize) -> usize
    requires ordered { next ≤ to }
    requires within { to ≤ length bytes.now }
    ensures low { next ≤ result }
    ensures high { result ≤ to }
    ensures none { NoRowFrom C.holds ROW bytes.now next result }
{
    let from = past_run::<C>(bytes, next, to);
    vector_search::next_row(&strangers_of::<C>(), bytes, from, to)
}

// The test of places at which no byte of the class stands.
#[derive(Drop)]
struct Strangers<C> {
    class: PhantomData<C>,
}

#[inline(always)]
fn strangers_of<C: ByteClass>() -> Strangers<C> {
    Strangers { class: PhantomData }
}

impl<C: ByteClass> PlaceTest for Strangers<C> {
    ghost passes = { λ _ bytes place. not (C.holds (slice_index bytes place)) };

    ghost REACH = { 0 };

    const REACH: usize = 0;

    #[inline(always)]
    fn mask(&self, bytes: &[u8], at: usize) -> u64 {
        C::strangers(u8x16::from_slice(&bytes[at..]))
    }

    #[inline(always)]
    fn passes_at(&self, bytes: &[u8], place: usize) -> bool {
        !C::has(bytes[place])
    }
}
