// The IPv4 header at a place.
ghost use Rattle.std.specs.Prelude.{◌≡◌, ◌*◌, ◌%◌, ◌≤◌, [], length, IsTrue, IfSome};
ghost use Rattle.std.specs.Option.{SomeIff, option_map};
ghost use Rattle.sbuf_nest.specs.Around.{seen};
ghost use Rattle.byte_kit.specs.Classes.{is_one_of};
ghost use Rattle.scan_net.specs.Packet.{begins_ipv4, header_size, known_protocols, ip_of};
ghost use Rattle.scan_net.specs.declared.checksum.TheConstants.{HEADER_MOST};
ghost use Rattle.scan_net.specs.Fields.{ipv4_fields, ip_shown};

use crate::checksum::{has_checksum, word};
use byte_kit::{be16_at, be32_at};
use sbuf_nest::Look;

// How many bytes the shortest header has: 5 words of 32 bits.
const HEADER_LEAST: usize = 20;

/// The fields of an IPv4 header (RFC 791 section 3.1), as numbers with the high byte first.
#[derive(Clone, Copy, Debug, PartialEq, Eq)]
pub struct Ipv4 {
    /// How many bytes the header has, 20 to 60.
    pub header: u32,
    /// How many bytes the header and what it carries have.
    pub total: u16,
    /// The address of the source.
    pub from: u32,
    /// The address of the destination.
    pub to: u32,
}

/// The IPv4 header (RFC 791 section 3.1) that begins at the place. None exactly where none does: the
/// version is not 4, the header has under 5 words or isn't there as a whole, the total length is below
/// the header's, the time to live is 0, the protocol is neither ICMP, TCP nor UDP, or the checksum
/// (RFC 1071 section 1) is wrong.
#[tactic(auto, unfolding(crate::specs::Packet::ip_of))]
pub fn ipv4_at(look: &Look) -> Option<Ipv4>
    ensures fields { SomeIff result (IsTrue (begins_ipv4 look.now.after.now)) (ipv4_fields look.now.after.now) }
    ensures shown { option_map ip_shown result ≡ ip_of (seen look.now) }
    ensures within { IfSome result (λ ip. ip.header ≤ length look.now.after.now) }
{
    header_at(look.after)
}

// The header at the front of the bytes.
fn header_at(bytes: &[u8]) -> Option<Ipv4>
    ensures fields { SomeIff result (IsTrue (begins_ipv4 bytes.now)) (ipv4_fields bytes.now) }
    ensures shown { option_map ip_shown result ≡ ip_of (record { before = []; after = bytes.now }) }
    ensures within { IfSome result (λ ip. ip.header ≤ length bytes.now) }
{
    if !begins_ipv4(bytes) {
        return None;
    }
    Some(Ipv4 {
        header: header_size(bytes[0]) as u32,
        total: be16_at(bytes, 2)?,
        from: be32_at(bytes, 12)?,
        to: be32_at(bytes, 16)?,
    })
}

// A whole IPv4 header stands at the front of the bytes. The checksum, which costs most, is judged last.
#[tactic(auto, unfolding(crate::specs::Packet::begins_ipv4))]
pub(crate) fn begins_ipv4(bytes: &[u8]) -> bool
    ensures begins { result ≡ begins_ipv4 bytes.now }
    ensures within { IsTrue result → header_size bytes.now ≤ length bytes.now }
    ensures least { IsTrue result → HEADER_LEAST ≤ header_size bytes.now }
{
    if bytes.len() < HEADER_LEAST || bytes[0] / 16 != 4 {
        return false;
    }
    let header = header_size(bytes[0]);
    if header < HEADER_LEAST || bytes.len() < header {
        return false;
    }
    if usize::from(word(bytes, 2)) < header || bytes[8] == 0 || !is_known(bytes[9]) {
        return false;
    }
    has_checksum(bytes.split_at(header).0)
}

// How many bytes a header has, by its first byte.
fn header_size(first: u8) -> usize
    ensures size { result ≡ 4 * (first % 16) }
    ensures most { result ≤ HEADER_MOST }
{
    4 * usize::from(first % 16)
}

// ICMP, TCP or UDP.
#[inline]
pub(crate) fn is_known(protocol: u8) -> bool
    ensures { result ≡ is_one_of known_protocols protocol }
{
    protocol == 1 || protocol == 6 || protocol == 17
}
