// The Ethernet header at a place.
ghost use Rattle.std.specs.Prelude.{◌≡◌, ◌+◌, ◌≤◌, ◌^◌, ◌<◌, [], length, IsTrue, IfSome};
ghost use Rattle.std.specs.Option.{SomeIff, option_map};
ghost use Rattle.sbuf_nest.specs.Around.{Around, seen};
ghost use Rattle.scan_net.specs.Packet.{begins_ether, ether_of};
ghost use Rattle.scan_net.specs.Fields.{be48, ether_fields, ether_shown};

use crate::checksum::word;
use crate::ipv4::begins_ipv4;
use crate::{ETHER_SIZE, ETHER_TYPE_IPV4};
use byte_kit::{be16_at, be32_at};
use sbuf_nest::Look;

/// The addresses of an Ethernet header (RFC 894), as numbers of 48 bits with the high byte first.
#[derive(Clone, Copy, Debug, PartialEq, Eq)]
pub struct Ether {
    /// The address of the destination.
    pub to: u64,
    /// The address of the source.
    pub from: u64,
}

/// The Ethernet header (RFC 894) that begins at the place, with IPv4 behind it. None exactly where none
/// does: the type is not that of IPv4, or no whole IPv4 header begins `ETHER_SIZE` bytes behind the place.
#[tactic(auto, unfolding(crate::specs::Packet::ether_of))]
pub fn ether_at(look: &Look) -> Option<Ether>
    ensures fields { SomeIff result (IsTrue (begins_ether look.now.after.now)) (ether_fields look.now.after.now) }
    ensures shown { option_map ether_shown result ≡ ether_of (seen look.now) }
    ensures within { IfSome result (λ ether. ETHER_SIZE ≤ length look.now.after.now) }
    ensures small { IfSome result (λ ether. (ether.to < 2 ^ 48) × (ether.from < 2 ^ 48)) }
{
    header_at(look.after)
}

// The header at the front of the bytes.
fn header_at(bytes: &[u8]) -> Option<Ether>
    ensures fields { SomeIff result (IsTrue (begins_ether bytes.now)) (ether_fields bytes.now) }
    ensures shown { option_map ether_shown result ≡ ether_of (record { before = []; after = bytes.now }) }
    ensures within { IfSome result (λ ether. ETHER_SIZE ≤ length bytes.now) }
    ensures small { IfSome result (λ ether. (ether.to < 2 ^ 48) × (ether.from < 2 ^ 48)) }
{
    if !begins_ether(bytes) {
        return None;
    }
    Some(Ether {
        to: be48_at(bytes, 0)?,
        from: be48_at(bytes, 6)?,
    })
}

// An Ethernet header stands at the front of the bytes, with a whole IPv4 header right behind it.
fn begins_ether(bytes: &[u8]) -> bool
    ensures begins { result ≡ begins_ether bytes.now }
    ensures within { IsTrue result → ETHER_SIZE ≤ length bytes.now }
{
    if bytes.len() < ETHER_SIZE {
        return false;
    }
    if word(bytes, 12) != ETHER_TYPE_IPV4 {
        return false;
    }
    begins_ipv4(bytes.split_at(ETHER_SIZE).1)
}

// The six bytes from `at` on as a number, the high one first. None where they are not all there.
fn be48_at(bytes: &[u8], at: usize) -> Option<u64>
    requires { at ≤ ETHER_SIZE }
    ensures value { SomeIff result (at + 6 ≤ length bytes.now) (be48 bytes.now at) }
    ensures small { IfSome result (λ number. number < 2 ^ 48) }
{
    let high = be16_at(bytes, at)?;
    let low = be32_at(bytes, at + 2)?;
    Some(u64::from(high) * 4294967296 + u64::from(low))
}
