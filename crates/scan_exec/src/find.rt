// The search of a buffer for executables and compressed files.
//
// It goes by the first two bytes of their signatures: 7F 45, 4D 5A, 1F 8B and 50 4B. The high halves of
// the four first bytes differ, so two look-ups take the place of eight comparisons: one gives the only
// first byte with that half, and one the byte that must follow it. A place that passes is judged.
//
// It costs the vector search, which sees each owned byte about once (5 GB/s from memory), and the
// judging, which reads at most the few bytes of a signature, or those of two headers. The worst image
// is `MZ` over and over again: each two bytes of it are judged. Most marks are made of 1F 8B 08 over
// and over again: one for each three bytes.
ghost use Rattle.std.specs.Prelude.{◌≡◌, ◌++◌, option_map, OnOk, OnErr};
ghost use Rattle.sbuf_nest.specs.Around.{seen};
ghost use Rattle.sbuf_nest.specs.Marks.{owned_marks, AppendsFirst};
ghost use Rattle.scan_exec.specs.Exec.{exec_of, unread_of};
ghost use Rattle.scan_exec.specs.Marks.{exec_marks};
ghost use Rattle.scan_exec.specs.Signatures.{begin_signature, may_begin};

use crate::{exec_at, unread_at};
use byte_kit::NoMemory;
use forensic_path::Kind;
use sbuf_nest::{Found, Look, Mark, Places, Sbuf, Search, find_marks};
use std::simd::prelude::*;
use vector_search::{PlaceTest, by_high_half, next_place};

/// Appends the marks of the executables' headers and of the compressed files, each where it is wanted,
/// that stand at the places that the buffer owns, in order of place. The extent is that of what
/// `exec_at` or `unread_at` answers there. Its one refusal is want of memory, which leaves the first
/// few of these marks appended.
pub fn find_execs(
    sb: &Sbuf,
    want_exec: bool,
    want_unread: bool,
    found: &mut Found,
) -> Result<(), NoMemory>
    ensures ok { OnOk result (found.new ≡ found.old ++ owned_marks (exec_marks want_exec want_unread) sb.now) }
    ensures err { OnErr result
        (AppendsFirst found.old found.new (owned_marks (exec_marks want_exec want_unread) sb.now)) }
{
    let mut search = ExecSearch {
        want_exec,
        want_unread,
    };
    find_marks(sb, &mut search, found)
}

// Which of the two kinds are wanted.
#[derive(Drop)]
struct ExecSearch {
    want_exec: bool,
    want_unread: bool,
}

impl Search for ExecSearch {
    type Item = Mark;

    ghost judge = { λ s. exec_marks s.want_exec s.want_unread };

    // The next place where a signature may begin.
    fn next_places(&mut self, sb: &Sbuf, next: usize) -> Option<Places> {
        let place = next_place(&SignatureTest, sb.bytes, next, sb.own_to());
        if place >= sb.own_to() {
            return None;
        }
        Some(Places {
            from: place,
            to: place + 1,
        })
    }

    fn marks_into(&mut self, look: &Look, place: usize, found: &mut Found) -> Result<(), NoMemory> {
        let exec = if self.want_exec {
            exec_extent(look)
        } else {
            None
        };
        let unread = if self.want_unread {
            unread_extent(look)
        } else {
            None
        };
        found.add_extent(place, Kind::Exec, 0, exec)?;
        found.add_extent(place, Kind::Unread, 0, unread)
    }
}

// How many bytes the header of the executable at the place has.
fn exec_extent(look: &Look) -> Option<u32>
    ensures { result ≡ option_map (λ header. header.extent) (exec_of (seen look.now)) }
{
    Some(exec_at(look)?.extent())
}

// How many bytes the signature of the compressed file at the place has.
fn unread_extent(look: &Look) -> Option<u32>
    ensures { result ≡ option_map (λ header. header.extent) (unread_of (seen look.now)) }
{
    Some(unread_at(look)?.extent())
}

// The test of places for the first two bytes of a signature.
struct SignatureTest;

impl PlaceTest for SignatureTest {
    ghost passes = { λ _ bytes place. may_begin bytes place };

    ghost REACH = { 1 };

    const REACH: usize = 1;

    #[inline(always)]
    fn mask(&self, bytes: &[u8], at: usize) -> u64 {
        let first = u8x16::from_slice(&bytes[at..]);
        let second = u8x16::from_slice(&bytes[at + 1..]);
        let is_first = first.simd_eq(by_high_half(FIRST, first));
        let is_second = second.simd_eq(by_high_half(SECOND, first));
        (is_first & is_second).to_bitmask()
    }

    #[inline(always)]
    #[tactic(auto, unfolding(crate::specs::Signatures::may_begin))]
    fn passes_at(&self, bytes: &[u8], place: usize) -> bool {
        let second = if bytes.len() - place > 1 {
            bytes[place + 1]
        } else {
            0
        };
        begins_signature(bytes[place], second)
    }
}

// The first byte of a signature by its high half. Where there is none stands a byte with another half.
static FIRST: [u8; 16] = [
    0xff, 0x1f, 0xff, 0xff, 0x4d, 0x50, 0xff, 0x7f, 0xff, 0xff, 0xff, 0xff, 0xff, 0xff, 0xff, 0,
];

// The byte behind it.
static SECOND: [u8; 16] = [0, 0x8b, 0, 0, 0x5a, 0x4b, 0, 0x45, 0, 0, 0, 0, 0, 0, 0, 0];

// A signature begins with these two bytes.
#[inline]
#[tactic(auto, unfolding(crate::specs::Signatures::begin_signature))]
fn begins_signature(first: u8, second: u8) -> bool
    ensures { result ≡ begin_signature first second }
{
    match first {
        0x7f => second == 0x45,
        0x4d => second == 0x5a,
        0x1f => second == 0x8b,
        0x50 => second == 0x4b,
        _ => false,
    }
}
