// Attaching the parts of an image.
ghost use Rattle.std.specs.Prelude.{◌≡◌, ◌≤◌, ◌<◌, length, map, None, IsTrue, IfOk, OnErr};
ghost use Rattle.std.specs.List.{All};
ghost use Rattle.host_source.specs.Source.{Attaches, IsDetached};
ghost use Rattle.image_source.specs.declared.parts.TheConstants.{PARTS_MOST};
ghost use Rattle.image_source.specs.Faults.{IsPartsCall};
ghost use Rattle.image_source.specs.Image.{AreAttached, IsAttachedBelow, IsPart};
ghost use Rattle.image_source.specs.Inside.{slots_of};

use crate::PartsFault;
use byte_kit::Name;
use host_source::Source;
use std::alloc::Global;

// A part of an image: the name that is attached to its slot, and how many bytes that holds.
#[derive(Drop)]
pub struct Part {
    pub name: Name,
    pub size: u64,
}

// Attaches each name to a slot, the first one to slot 0, and gives what was attached, in this order.
pub(crate) fn attach_all<S: Source>(
    alloc: Global,
    source: &mut S,
    names: &[Name],
) -> Result<Vec<Part>, PartsFault>
    requires most { length names.now ≤ PARTS_MOST }
    requires detached { IsDetached (S.slots source.old) }
    requires asked { All (λ name. IsTrue ((S.nature source.old).may_attach name)) names.now }
    ensures same { S.nature source.new ≡ S.nature source.old }
    ensures attached { IfOk result (λ parts. AreAttached (S.slots source.new) (slots_of parts.items)) }
    ensures below { IsAttachedBelow (length names.now) (S.slots source.new) }
    ensures named { IfOk result (λ parts. map (λ part. part.name) parts.items ≡ names.now) }
    ensures parts { IfOk result (λ parts. All (IsPart (S.nature source.old)) (slots_of parts.items)) }
    ensures cause { IsPartsCall (S.faults source.old) (S.faults source.new) result }
{
    let mut parts = Vec::new(alloc);
    for name in names {
        let part = attach_part(alloc, source, parts.len() as u32, name)?;
        parts.push(part)?;
    }
    Ok(parts)
}

// Attaches a name to a slot.
fn attach_part<S: Source>(
    alloc: Global,
    source: &mut S,
    slot: u32,
    name: &Name,
) -> Result<Part, PartsFault>
    requires below { slot < 64 }
    requires free { S.slots source.old slot ≡ None }
    requires asked { IsTrue ((S.nature source.old).may_attach name.now) }
    ensures same { S.nature source.new ≡ S.nature source.old }
    ensures named { IfOk result (λ part. part.name ≡ name.now) }
    ensures attached { IfOk result (λ part. Attaches (S.nature source.old) (S.slots source.old) (S.slots source.new) slot name.now part.size) }
    ensures refused { OnErr result (S.slots source.new ≡ S.slots source.old) }
    ensures cause { IsPartsCall (S.faults source.old) (S.faults source.new) result }
{
    let name = Name::copy(alloc, name.as_str())?;
    let size = source.attach(slot, name.as_str())?;
    Ok(Part { name, size })
}
