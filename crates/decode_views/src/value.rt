// The text that a run of pairs stands for.
ghost use Rattle.std.specs.Prelude.{◌≡◌, ◌*◌, [], length, take, OnOk, OnErr};
ghost use Rattle.decode_views.specs.Utf16.{utf16_value, IsText};

use byte_kit::NoMemory;
use sbuf_nest::Extent;

/// The value of the run of pairs at the front of the bytes (`utf16_value` of `specs/Utf16.antt`), in place
/// of what `into` held. It asks for an extent that [`utf16_run`](crate::utf16_run) gave at a place from
/// which on these are the bytes. Its one refusal is want of memory, which leaves `into` empty.
pub fn utf16_value(after: &[u8], extent: Extent, into: &mut Vec<u8>) -> Result<(), NoMemory>
    requires given { IsText after.now extent }
    ensures value { OnOk result (into.new.items ≡ utf16_value (take extent.bytes after.now)) }
    ensures refused { OnErr result (into.new.items ≡ []) }
{
    let (pairs, _) = after.split_at(extent.bytes as usize);
    into.clear();
    into.resize(pairs.len() / 2, 0)?;
    first_bytes(pairs, into.as_mut_slice());
    Ok(())
}

// Writes the first byte of each pair, which fills the bytes.
fn first_bytes(pairs: &[u8], into: &mut [u8])
    requires room { length pairs.now ≡ 2 * length into.old }
    ensures { into.new ≡ utf16_value pairs.now }
{
    for (pair, byte) in into.iter_mut().enumerate() {
        *byte = pairs[2 * pair];
    }
}
