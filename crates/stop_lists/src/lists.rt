// A stop list and an alert list, as a scan asks them.
ghost use Rattle.std.specs.Prelude.{◌≡◌, IfOk};
ghost use Rattle.stop_lists.specs.Lists.{class_under, entries_of};

use crate::hash::{hash_more, hash_of};
use crate::table::Table;
use byte_kit::NoMemory;
use forensic_path::Class;
use std::alloc::Global;
use std::marker::Model;

/// The entries of a stop list and of an alert list, each read once.
#[derive(Drop)]
pub struct Lists {
    stop: Table,
    alert: Table,
    // Neither has an entry.
    is_empty: bool,
}

impl Model for Lists {
    ghost use Rattle.std.specs.Prelude.{◌≡◌, true, []};
    ghost use Rattle.stop_lists.specs.Lists.{ListEntries};

    ghost Value = { ListEntries };

    ghost view = { λ l. record { stop = l.stop; alert = l.alert } };

    ghost invariant = { λ l. l.is_empty ≡ true → (l.stop ≡ []) × (l.alert ≡ []) };
}

impl Lists {
    /// Reads the entries of a stop list and of an alert list, of which every sequence of bytes is one:
    /// a line is a feature, a feature and a context, or a line of a feature file, its fields are kept
    /// apart by TABs, and escapes in them are read leniently. An empty line and one that begins with `#`
    /// name none. Its one refusal is want of memory.
    pub fn read(alloc: Global, stop: &[u8], alert: &[u8]) -> Result<Lists, NoMemory>
        ensures stop { IfOk result (λ lists. lists.stop ≡ entries_of stop.now) }
        ensures alert { IfOk result (λ lists. lists.alert ≡ entries_of alert.now) }
    {
        let stop = Table::read(alloc, stop)?;
        let alert = Table::read(alloc, alert)?;
        let is_empty = stop.is_empty() && alert.is_empty();
        Ok(Lists {
            stop,
            alert,
            is_empty,
        })
    }

    /// The class of a feature in its context: [`Class::Alert`] where an entry of the alert list meets it,
    /// otherwise [`Class::Stopped`] where one of the stop list does, and [`Class::Plain`] where none does.
    /// An entry meets a feature of any kind with equal bytes, and one that has a context meets it in that
    /// context alone. It takes no memory.
    #[tactic(auto, unfolding(crate::specs::Lists::class_under))]
    pub fn class_of(&self, feature: &[u8], context: &[u8]) -> Class
        ensures { result ≡ class_under self.now.stop self.now.alert feature.now context.now }
    {
        if self.is_empty {
            return Class::Plain;
        }
        let alone = hash_of(feature);
        let within = hash_more(alone, context);
        if self.alert.meets(alone, within, feature, context) {
            Class::Alert
        } else if self.stop.meets(alone, within, feature, context) {
            Class::Stopped
        } else {
            Class::Plain
        }
    }
}
