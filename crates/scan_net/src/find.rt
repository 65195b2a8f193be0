// The search of a buffer for packets.
//
// It goes by a search for places where an IPv4 header may begin, by its first byte and its protocol: two
// vectors for sixteen places, and one place of 2,000 passes in random bytes. There the whole header is looked
// at, and its checksum is wrong in nearly all of them. Each packet has an IPv4 header: an Ethernet header
// stands `ETHER_SIZE` bytes ahead of it. So the places from there up to it are judged, most of them by two bytes.
//
// It costs the vector search, which sees each owned byte about once, and the judging. The worst image is
// nine bytes 0x4F and nine bytes 1 in turn: half of the places pass, the checksum of 60 bytes is
// taken at each of them, and the search is begun anew.
ghost use Rattle.std.specs.Prelude.{◌≡◌, ◌≤◌, ◌++◌, length, OnOk, OnErr};
ghost use Rattle.sbuf_nest.specs.Marks.{owned_marks, AppendsFirst};
ghost use Rattle.sbuf_nest.specs.Around.{seen};
ghost use Rattle.scan_net.specs.Filter.{has_ipv4};
ghost use Rattle.scan_net.specs.Marks.{extent_of, packet_marks};
ghost use Rattle.scan_net.specs.Packet.{ip_of, ether_of};
ghost use Rattle.vector_search.specs.Places.{NoneIn};

use crate::filter::HeaderTest;
use crate::ipv4::begins_ipv4;
use crate::{ETHER_SIZE, ether_at, ipv4_at};
use byte_kit::NoMemory;
use forensic_path::Kind;
use sbuf_nest::{Found, Look, Mark, Places, Sbuf, Search, find_marks};
use vector_search::next_place;

/// Appends the marks of the IPv4 and Ethernet headers that stand at the places that the buffer owns, in
/// order of place, and at one place the IPv4 header first. Each header has two marks: the one whose
/// `which` is 0 is for the source of an IPv4 header and for the destination of an Ethernet header, which
/// stand first in it, and the one whose `which` is 1 is for the other address. The extent is the header.
/// Its one refusal is want of memory, which leaves the first few of these marks appended.
pub fn find_packets(sb: &Sbuf, found: &mut Found) -> Result<(), NoMemory>
    ensures ok { OnOk result (found.new ≡ found.old ++ owned_marks packet_marks sb.now) }
    ensures err { OnErr result (AppendsFirst found.old found.new (owned_marks packet_marks sb.now)) }
{
    find_marks(sb, &mut PacketSearch, found)
}

// The search for packets.
#[derive(Drop)]
struct PacketSearch;

impl Search for PacketSearch {
    type Item = Mark;

    ghost judge = { λ _. packet_marks };

    // The places from `ETHER_SIZE` ahead of the next one where an IPv4 header begins, up to it.
    fn next_places(&mut self, sb: &Sbuf, next: usize) -> Option<Places> {
        let end = (sb.own_to() + ETHER_SIZE).min(sb.len());
        let header = next_header(sb.bytes, next, end);
        if header == end {
            return None;
        }
        Some(Places {
            from: next.max(header.saturating_sub(ETHER_SIZE)),
            to: (header + 1).min(sb.own_to()),
        })
    }

    fn marks_into(&mut self, look: &Look, place: usize, found: &mut Found) -> Result<(), NoMemory> {
        let ip = ip_extent(look);
        let ether = ether_extent(look);
        found.add_extent(place, Kind::Ip, 0, ip)?;
        found.add_extent(place, Kind::Ip, 1, ip)?;
        found.add_extent(place, Kind::Ether, 0, ether)?;
        found.add_extent(place, Kind::Ether, 1, ether)
    }
}

// The first place from `from` up to `to` where a whole IPv4 header begins, or `to` where none does.
fn next_header(bytes: &[u8], from: usize, to: usize) -> usize
    requires ordered { from ≤ to }
    requires within { to ≤ length bytes.now }
    ensures low { from ≤ result }
    ensures high { result ≤ to }
    ensures none { NoneIn (has_ipv4 bytes.now) from result }
{
    let mut at = next_place(&HeaderTest, bytes, from, to);
    while at < to && !begins_ipv4(bytes.split_at(at).1) {
        at = next_place(&HeaderTest, bytes, at + 1, to);
    }
    at
}

// How many bytes the IPv4 header at the place has, if one stands there.
fn ip_extent(look: &Look) -> Option<u32>
    ensures { result ≡ extent_of (ip_of (seen look.now)) }
{
    Some(ipv4_at(look)?.header)
}

// How many bytes the Ethernet header at the place has, if one stands there.
fn ether_extent(look: &Look) -> Option<u32>
    ensures { result ≡ extent_of (ether_of (seen look.now)) }
{
    ether_at(look)?;
    Some(ETHER_SIZE as u32)
}
