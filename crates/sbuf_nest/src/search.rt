// The search of a buffer for the marks of its places.
ghost use Rattle.std.specs.Prelude.{◌≡◌, ◌-◌, ◌<◌, ◌≤◌, ◌++◌, ℕ, List, length, IfNone, IfSome, OnOk, OnErr};
ghost use Rattle.sbuf_nest.specs.Around.{Around, seen};
ghost use Rattle.sbuf_nest.specs.Marks.{marks_of, owned_marks, NoneFrom, AppendsFirst};

use crate::{Items, Look, Sbuf};
use byte_kit::NoMemory;

/// The places of a buffer from `from` up to `to`, which is not one of them.
#[derive(Clone, Copy)]
pub struct Places {
    /// The first place.
    pub from: usize,
    /// The place behind the last one.
    pub to: usize,
}

/// What is searched for, and which places of a buffer have to be judged for it. The calls may change
/// a search, as a matcher changes with each use, but never which marks a place has.
pub trait Search {
    /// What is found: a `Mark`, or a `Start`.
    type Item: Copy;

    /// The marks of a place, in the order in which they are appended. They are judged by the place's
    /// Look; the place is for the marks themselves.
    ghost judge: { Self → Around → ℕ → List Self.Item };

    /// The next places to be judged, one at least, of the owned ones from `next` on: none of those
    /// ahead of them has a mark. None is answered where no owned place from `next` on has one.
    ///
    /// Any number of places may be passed over in a call, and each one that is given is judged.
    fn next_places(&mut self, sb: &Sbuf, next: usize) -> Option<Places>
        requires owned { next < sb.now.own_to }
        ensures judge { judge self.new ≡ judge self.old }
        ensures none { IfNone result (NoneFrom (judge self.old) sb.now.bytes.now next sb.now.own_to) }
        ensures ahead { IfSome result (λ places. NoneFrom (judge self.old) sb.now.bytes.now next places.from) }
        ensures ordered { IfSome result (λ places. (next ≤ places.from) × (places.from < places.to)) }
        ensures within { IfSome result (λ places. places.to ≤ sb.now.own_to) };

    /// Appends the marks of the place whose Look is given. Its one refusal is want of memory, which
    /// leaves the first few of them appended.
    fn marks_into(
        &mut self,
        look: &Look,
        place: usize,
        found: &mut Items<Self::Item>,
    ) -> Result<(), NoMemory>
        ensures judge { judge self.new ≡ judge self.old }
        ensures ok { OnOk result (found.new ≡ found.old ++ judge self.old (seen look.now) place) }
        ensures err { OnErr result (AppendsFirst found.old found.new (judge self.old (seen look.now) place)) };
}

/// Appends the marks of the places that the buffer owns, in order of place (`owned_marks`), each one
/// judged by its Look alone. Its one refusal is want of memory, which leaves the first few of these
/// marks appended. The search means afterwards what it meant before.
pub fn find_marks<S: Search>(
    sb: &Sbuf,
    search: &mut S,
    found: &mut Items<S::Item>,
) -> Result<(), NoMemory>
    ensures judge { S.judge search.new ≡ S.judge search.old }
    ensures ok { OnOk result (found.new ≡ found.old ++ owned_marks (S.judge search.old) sb.now) }
    ensures err { OnErr result (AppendsFirst found.old found.new (owned_marks (S.judge search.old) sb.now)) }
{
    let mut next = sb.own_from();
    while next < sb.own_to() {
        let Some(places) = search.next_places(sb, next) else {
            return Ok(());
        };
        add_places(sb, places, search, found)?;
        next = places.to;
    }
    Ok(())
}

// Appends the marks of the places.
fn add_places<S: Search>(
    sb: &Sbuf,
    places: Places,
    search: &mut S,
    found: &mut Items<S::Item>,
) -> Result<(), NoMemory>
    requires ordered { places.from ≤ places.to }
    requires within { places.to ≤ length sb.now.bytes.now }
    ensures judge { S.judge search.new ≡ S.judge search.old }
    ensures ok { OnOk result
        (found.new ≡ found.old ++ marks_of (S.judge search.old) sb.now.bytes.now places.from (places.to - places.from)) }
    ensures err { OnErr result
        (AppendsFirst found.old found.new (marks_of (S.judge search.old) sb.now.bytes.now places.from (places.to - places.from))) }
{
    for place in places.from..places.to {
        search.marks_into(&sb.look(place), place, found)?;
    }
    Ok(())
}
