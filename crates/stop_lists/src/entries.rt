// The entries of a list: one copy of their bytes, and the place of each in it.
ghost use Rattle.std.specs.Prelude.{◌≡◌, ◌<◌, List, [], ◌∷◌, ◌++◌, Some, None, length, slice_index_or, option_copied, OnOk};
ghost use Rattle.feature_escape.specs.Escape.{unescape_lenient_of};
ghost use Rattle.stop_lists.specs.Lists.{Entry};
ghost use Rattle.stop_lists.specs.Hash.{entry_hash};
ghost use Rattle.stop_lists.specs.Places.{is_entry};

use crate::hash::{hash_more, hash_of};
use byte_kit::NoMemory;
use feature_escape::unescape_lenient;
use std::alloc::Global;
use std::marker::Model;

// Where an entry stands: its feature's first byte, and how many bytes its feature has, and its context
// right behind it.
#[derive(Clone, Copy, Debug)]
pub(crate) struct Place {
    start: usize,
    feature: usize,
    context: Option<usize>,
}

#[derive(Drop)]
pub(crate) struct Entries {
    bytes: Vec<u8>,
    places: Vec<Place>,
}

impl Model for Entries {
    ghost use Rattle.std.specs.Prelude.{List, map};
    ghost use Rattle.std.specs.List.{All};
    ghost use Rattle.stop_lists.specs.Lists.{Entry};

    ghost Value = { List Entry };

    ghost use Rattle.stop_lists.specs.Places.{entry_at, IsWithin};

    ghost view = { λ e. map (entry_at e.bytes.items) e.places.items };

    ghost invariant = { λ e. All (IsWithin e.bytes.items) e.places.items };
}

impl Entries {
    // No entry, which takes no memory.
    pub(crate) fn make(alloc: Global) -> Entries
        ensures { result ≡ [] }
    {
        Entries {
            bytes: Vec::new(alloc),
            places: Vec::new(alloc),
        }
    }

    // How many entries there are.
    pub(crate) fn len(&self) -> usize
        ensures { result ≡ length self.now }
    {
        self.places.len()
    }

    // Appends the entry of a feature's text, which has no context.
    pub(crate) fn add_alone(&mut self, alloc: Global, text: &[u8]) -> Result<(), NoMemory>
        ensures { OnOk result
            (self.new ≡ self.old ++ record { feature = unescape_lenient_of text.now; context = None } ∷ []) }
    {
        let feature = unescape_lenient(alloc, text)?;
        let feature = feature.as_slice();
        let start = self.bytes.len();
        self.bytes.extend_from_slice(feature)?;
        self.places.push(Place {
            start,
            feature: feature.len(),
            context: None,
        })?;
        Ok(())
    }

    // Appends the entry of a feature's text and its context's.
    pub(crate) fn add_within(
        &mut self,
        alloc: Global,
        text: &[u8],
        around: &[u8],
    ) -> Result<(), NoMemory>
        ensures { OnOk result
            (self.new ≡ self.old ++ record { feature = unescape_lenient_of text.now; context = Some (unescape_lenient_of around.now) } ∷ []) }
    {
        let feature = unescape_lenient(alloc, text)?;
        let feature = feature.as_slice();
        let context = unescape_lenient(alloc, around)?;
        let context = context.as_slice();
        let start = self.bytes.len();
        self.bytes.extend_from_slice(feature)?;
        self.bytes.extend_from_slice(context)?;
        self.places.push(Place {
            start,
            feature: feature.len(),
            context: Some(context.len()),
        })?;
        Ok(())
    }

    // The hash of an entry.
    pub(crate) fn hash_at(&self, index: usize) -> u64
        requires { index < length self.now }
        ensures { (d : Entry) → result ≡ entry_hash (slice_index_or self.now index d) }
    {
        let place = self.places[index];
        let (_, rest) = self.bytes.as_slice().split_at(place.start);
        let (feature, rest) = rest.split_at(place.feature);
        let hash = hash_of(feature);
        match place.context {
            None => hash,
            Some(count) => hash_more(hash, rest.split_at(count).0),
        }
    }

    // Whether an entry is the one of this feature, with this context or with none.
    pub(crate) fn is_at(&self, index: usize, feature: &[u8], context: Option<&[u8]>) -> bool
        requires { index < length self.now }
        ensures { (d : Entry)
            → result ≡ is_entry feature.now (option_copied context.entry) (slice_index_or self.now index d) }
    {
        let place = self.places[index];
        let (_, rest) = self.bytes.as_slice().split_at(place.start);
        let (held, rest) = rest.split_at(place.feature);
        if held != feature {
            return false;
        }
        match (place.context, context) {
            (None, None) => true,
            (Some(count), Some(context)) => rest.split_at(count).0 == context,
            _ => false,
        }
    }
}
