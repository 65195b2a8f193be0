// The kinds of blocks, which follow each other by turns.
ghost use Rattle.std.specs.Prelude.{◌≡◌};
ghost use Rattle.image_gen.specs.Blocks.{kind_of};

// What a block holds at its front.
#[derive(Clone, Copy, Debug, PartialEq, Eq)]
pub(crate) enum Kind {
    Line,
    Base64,
    Wide,
    Packet,
    Empty,
    Elf,
    Gzip,
    Hex,
}

impl Kind {
    // The kind of the block with this number.
    pub(crate) fn of(number: usize) -> Kind
        ensures { result ≡ kind_of number }
    {
        match number % 8 {
            0 => Kind::Line,
            1 => Kind::Base64,
            2 => Kind::Wide,
            3 => Kind::Packet,
            4 => Kind::Empty,
            5 => Kind::Elf,
            6 => Kind::Gzip,
            _ => Kind::Hex,
        }
    }
}
