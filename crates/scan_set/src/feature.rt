// The feature of a mark.
ghost use Rattle.std.specs.Prelude.{◌≡◌, ◌<◌, [], ◌∷◌, ◌++◌, length, IfOk, OnOk};
ghost use Rattle.sbuf_nest.specs.Around.{seen, look_at};
ghost use Rattle.scan_net.specs.Packet.{ip_of, ether_of};
ghost use Rattle.scan_exec.specs.Exec.{exec_of, unread_of};
ghost use Rattle.scan_set.specs.Here.{context_of, feature_of};
ghost use Rattle.scan_set.specs.Marks.{text_of, address_text, header_text, shape_of};

use crate::ScanPlan;
use byte_kit::{Bytes, NoMemory};
use forensic_path::{Feature, Kind, Path};
use sbuf_nest::{LOOK_AFTER, LOOK_BEFORE, Look, Mark, Sbuf};
use scan_exec::{exec_at, exec_text, unread_at};
use scan_net::{ether_at, ether_text, ip_text, ipv4_at};
use std::alloc::Global;

// Appends the feature of a mark of the buffer, at its path. It is made where it is to stand: a feature
// that is handed up as a result is moved twice.
pub(crate) fn add_marked(
    alloc: Global,
    sb: &Sbuf,
    plan: &ScanPlan,
    mark: &Mark,
    path: Path,
    out: &mut Vec<Feature>,
) -> Result<(), NoMemory>
    requires { mark.now.at < length sb.now.bytes.now }
    ensures { OnOk result (out.new.items ≡ out.old.items ++ feature_of plan.now (look_at sb.now.bytes.now mark.now.at) path (shape_of (look_at sb.now.bytes.now mark.now.at) mark.now) ∷ []) }
{
    let look = sb.look(mark.at);
    let feature = text_of(alloc, &look, mark)?;
    let context = context_of(alloc, sb, mark.at, mark.extent, plan.context)?;
    out.push(Feature {
        kind: mark.kind,
        path,
        feature,
        context,
    })?;
    Ok(())
}

// The text of what was found: what its header shows, or the bytes that it covers.
fn text_of(alloc: Global, look: &Look, mark: &Mark) -> Result<Bytes, NoMemory>
    ensures { IfOk result (λ text. text ≡ text_of (seen look.now) mark.now) }
{
    match mark.kind {
        Kind::Ip => ip_address(alloc, look, mark.which),
        Kind::Ether => ether_address(alloc, look, mark.which),
        Kind::Exec => exec_header(alloc, look),
        Kind::Unread => unread_name(alloc, look),
        Kind::Url | Kind::Domain | Kind::Find | Kind::Word => {
            let count = (mark.extent as usize).min(look.after.len());
            Bytes::copy(alloc, look.after.split_at(count).0)
        }
    }
}

// The first or the second address of the IPv4 header at the place: its source or its destination.
fn ip_address(alloc: Global, look: &Look, which: u16) -> Result<Bytes, NoMemory>
    ensures { IfOk result (λ text. text ≡ address_text which (ip_of (seen look.now))) }
{
    match ipv4_at(look) {
        None => Ok(Bytes::from(Vec::new(alloc))),
        Some(ip) if which == 0 => ip_text(alloc, ip.from),
        Some(ip) => ip_text(alloc, ip.to),
    }
}

// The first or the second address of the Ethernet header at the place: its destination or its source.
fn ether_address(alloc: Global, look: &Look, which: u16) -> Result<Bytes, NoMemory>
    ensures { IfOk result (λ text. text ≡ address_text which (ether_of (seen look.now))) }
{
    match ether_at(look) {
        None => Ok(Bytes::from(Vec::new(alloc))),
        Some(ether) if which == 0 => ether_text(alloc, ether.to),
        Some(ether) => ether_text(alloc, ether.from),
    }
}

// What the executable's header at the place shows.
fn exec_header(alloc: Global, look: &Look) -> Result<Bytes, NoMemory>
    ensures { IfOk result (λ text. text ≡ header_text (exec_of (seen look.now))) }
{
    match exec_at(look) {
        None => Ok(Bytes::from(Vec::new(alloc))),
        Some(exec) => exec_text(alloc, &exec),
    }
}

// The name of the compressed file at the place.
fn unread_name(alloc: Global, look: &Look) -> Result<Bytes, NoMemory>
    ensures { IfOk result (λ text. text ≡ header_text (unread_of (seen look.now))) }
{
    match unread_at(look) {
        None => Ok(Bytes::from(Vec::new(alloc))),
        Some(unread) => Bytes::copy(alloc, unread.text()),
    }
}

// So many bytes of the place, and up to `reach` bytes on either side of them, as far as its Look goes.
fn context_of(
    alloc: Global,
    sb: &Sbuf,
    at: usize,
    extent: u32,
    reach: u16,
) -> Result<Bytes, NoMemory>
    requires { at < length sb.now.bytes.now }
    ensures { IfOk result (λ context. context ≡ context_of reach (look_at sb.now.bytes.now at) extent) }
{
    let ahead = at.min(LOOK_BEFORE).min(reach as usize);
    let behind = (extent as usize + reach as usize).min(LOOK_AFTER);
    let part = sb.part(at - ahead, at + behind.min(sb.len() - at));
    Bytes::copy(alloc, part)
}
