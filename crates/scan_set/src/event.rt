// What a scan goes over.
ghost use Rattle.std.specs.Prelude.{◌≡◌};
ghost use Rattle.scan_set.specs.Events.{own_event, text_event, viewed_event};

use forensic_path::{Decoder, Kind};
use sbuf_nest::{Extent, Mark, Start};

// A place of a buffer, and what stands there, in the buffer itself or in its view.
#[derive(Clone, Copy)]
pub(crate) struct Event {
    pub(crate) at: usize,
    pub(crate) in_view: bool,
    pub(crate) sign: Sign,
}

// What stands at the place of an event.
#[derive(Clone, Copy)]
pub(crate) enum Sign {
    // A feature of the buffer's own, which covers so many bytes of the place.
    Own { kind: Kind, which: u16, extent: u32 },
    // An encoded text.
    Encoded { by: Decoder, extent: Extent },
}

// What a search lists, as events.
pub(crate) trait Listed: Copy {
    ghost use Rattle.scan_set.specs.declared.event.Event.{Event};

    // The event of an item.
    ghost event: { Self → Event };

    // The event of this item.
    fn event(&self) -> Event
        ensures { result ≡ event self.now };
}

impl Listed for Mark {
    ghost event = { own_event };

    #[inline]
    fn event(&self) -> Event {
        Event {
            at: self.at,
            in_view: false,
            sign: Sign::Own {
                kind: self.kind,
                which: self.which,
                extent: self.extent,
            },
        }
    }
}

impl Listed for Start {
    ghost event = { text_event };

    #[inline]
    fn event(&self) -> Event {
        Event {
            at: self.at,
            in_view: false,
            sign: Sign::Encoded {
                by: self.by,
                extent: self.extent,
            },
        }
    }
}

// The events of a view are listed among those of its buffer.
impl Listed for Event {
    ghost event = { viewed_event };

    #[inline]
    fn event(&self) -> Event {
        Event {
            at: self.at,
            in_view: true,
            sign: self.sign,
        }
    }
}
