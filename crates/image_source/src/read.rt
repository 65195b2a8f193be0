// Reading across the borders of parts.
ghost use Rattle.std.specs.Prelude.{◌≡◌, ◌+◌, ◌≤◌, length, take, drop, OnOk, IfSome};
ghost use Rattle.std.specs.List.{All};
ghost use Rattle.byte_kit.specs.Counts.{CountsFault};
ghost use Rattle.image_source.specs.declared.parts.TheConstants.{PARTS_MOST};
ghost use Rattle.image_source.specs.Image.{AreAttached, IsPart, joined, size_of};
ghost use Rattle.image_source.specs.Inside.{slots_of};

use crate::attach::Part;
use host_source::{Source, SourceFault};

// Fills `into` with the bytes of the joined parts from place `at` on, by one call for each part that these
// bytes touch.
pub(crate) fn read_parts<S: Source>(
    source: &mut S,
    parts: &[Part],
    at: u64,
    into: &mut [u8],
) -> Result<(), SourceFault>
    requires most { length parts.now ≤ PARTS_MOST }
    requires attached { AreAttached (S.slots source.old) (slots_of parts.now) }
    requires parts { All (IsPart (S.nature source.old)) (slots_of parts.now) }
    requires within { at + length into.old ≤ size_of (slots_of parts.now) }
    ensures same { S.nature source.new ≡ S.nature source.old }
    ensures slots { S.slots source.new ≡ S.slots source.old }
    ensures read { OnOk result (IfSome (joined (S.nature source.old) (slots_of parts.now)) (λ image. into.new ≡ take (length into.new) (drop at image))) }
    ensures cause { CountsFault (S.faults source.old) (S.faults source.new) result }
{
    let mut border = 0;
    let mut done = 0;
    for slot in 0..parts.len() {
        let begin = border;
        border += parts[slot].size;
        let next = at + done as u64;
        if done < into.len() && next < border {
            let count = (into.len() - done).min((border - next) as usize);
            let (_, rest) = into.split_at_mut(done);
            let (here, _) = rest.split_at_mut(count);
            source.read_at(slot as u32, next - begin, here)?;
            done += count;
        }
    }
    Ok(())
}
