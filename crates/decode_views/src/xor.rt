// The bytes as a mask shows them.
ghost use Rattle.std.specs.Prelude.{◌≡◌, [], OnOk, OnErr};
ghost use Rattle.decode_views.specs.Xor.{xored_bytes};

use byte_kit::NoMemory;

/// The bytes with each one XORed with the mask (`xored_bytes` of `specs/Xor.antt`), in place of what `into`
/// held. Its one refusal is want of memory, which leaves `into` empty.
pub fn xor_view(bytes: &[u8], mask: u8, into: &mut Vec<u8>) -> Result<(), NoMemory>
    ensures value { OnOk result (into.new.items ≡ xored_bytes mask bytes.now) }
    ensures refused { OnErr result (into.new.items ≡ []) }
{
    into.clear();
    into.extend_from_slice(bytes)?;
    mask_all(into.as_mut_slice(), mask);
    Ok(())
}

// XORs each byte with the mask.
fn mask_all(bytes: &mut [u8], mask: u8)
    ensures { bytes.new ≡ xored_bytes mask bytes.old }
{
    for byte in bytes.iter_mut() {
        *byte ^= mask;
    }
}
