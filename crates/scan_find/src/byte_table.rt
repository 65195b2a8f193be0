// A table of the bytes that buckets let pass.
ghost use Rattle.std.specs.Prelude.{◌≡◌, length};
ghost use Rattle.vector_search.specs.declared.place_test.TheConstants.{LANES};

use vector_search::LANES;

// Which buckets let a byte pass, a bit each, by its low half and by its high half.
#[derive(Clone, Copy)]
pub(crate) struct ByteTable {
    pub(crate) low: [u8; LANES],
    pub(crate) high: [u8; LANES],
    ghost low_long: { length low ≡ LANES },
    ghost high_long: { length high ≡ LANES },
}

impl ByteTable {
    // Lets no byte pass.
    pub(crate) fn empty() -> ByteTable {
        ByteTable {
            low: [0; LANES],
            high: [0; LANES],
        }
    }
}
