use crate::{Ether, Ipv4, ether_at, ether_text, find_packets, ip_text, ipv4_at};
use byte_kit::NoMemory;
use forensic_path::Kind;
use sbuf_nest::{Found, Look, Mark, Sbuf};
use std::alloc::Global;
use std::test::Fail;

// A header of UDP from 192.168.0.1 to 192.168.0.199, with a total length of 115 bytes.
const UDP: &[u8] =
    b"\x45\x00\x00\x73\x00\x00\x40\x00\x40\x11\xb8\x61\xc0\xa8\x00\x01\xc0\xa8\x00\xc7";

// The same behind an Ethernet header from 02:00:00:00:ab:cd to 02:00:00:00:00:01.
const PACKET: &[u8] =
    b"\x02\x00\x00\x00\x00\x01\x02\x00\x00\x00\xab\xcd\x08\x00\x45\x00\x00\x73\x00\x00\x40\x00\x40\x11\xb8\x61\xc0\xa8\x00\x01\xc0\xa8\x00\xc7";

// Bytes, and the headers of IPv4 and of Ethernet at the first of them.
const HEADERS: &[(&[u8], Option<Ipv4>, Option<Ether>)] = &[
    (
        UDP,
        Some(Ipv4 {
            header: 20,
            total: 115,
            from: 0xc0a80001,
            to: 0xc0a800c7,
        }),
        None,
    ),
    (
        b"\x46\x00\x00\x18\x00\x00\x40\x00\x40\x11\xb6\xbb\xc0\xa8\x00\x01\xc0\xa8\x00\xc7\x01\x01\x00\x00",
        Some(Ipv4 {
            header: 24,
            total: 24,
            from: 0xc0a80001,
            to: 0xc0a800c7,
        }),
        None,
    ),
    (
        PACKET,
        None,
        Some(Ether {
            to: 0x020000000001,
            from: 0x02000000abcd,
        }),
    ),
];

// The headers of IPv4 and of Ethernet at the first byte are these.
fn begins(after: &[u8], ip: &Option<Ipv4>, ether: &Option<Ether>) -> bool {
    let look = Look { before: b"", after };
    ipv4_at(&look) == *ip && ether_at(&look) == *ether
}

#[test]
fn a_header_has_its_fields_as_numbers(rt: HostRuntime) {
    for (after, ip, ether) in HEADERS {
        assert!(rt; begins(after, ip, ether), "at {after:?}");
    }
}

const IP_TEXTS: &[(u32, &str)] = &[
    (0, "0.0.0.0"),
    (0xc0a800c7, "192.168.0.199"),
    (0x0164630a, "1.100.99.10"),
    (0xffffffff, "255.255.255.255"),
];

const ETHER_TEXTS: &[(u64, &str)] = &[
    (0, "00:00:00:00:00:00"),
    (0x02000000abcd, "02:00:00:00:ab:cd"),
    (0x0123456789ef, "01:23:45:67:89:ef"),
    (0xffffffffffff, "ff:ff:ff:ff:ff:ff"),
];

#[test]
fn an_ip_address_has_its_usual_text(rt: HostRuntime) -> Result<(), Fail> {
    for (address, want) in IP_TEXTS {
        let text = ip_text(rt.alloc(), *address)?;
        assert!(rt; text.as_slice() == want.as_bytes(), "not {want}");
    }
    Ok(())
}

#[test]
fn a_hardware_address_has_its_usual_text(rt: HostRuntime) -> Result<(), Fail> {
    for (address, want) in ETHER_TEXTS {
        let text = ether_text(rt.alloc(), *address)?;
        assert!(rt; text.as_slice() == want.as_bytes(), "not {want}");
    }
    Ok(())
}

// The kind, the place, the number and the extent of a mark.
type Wanted = (Kind, usize, u16, u32);

// The mark is that one, with its place counted from `first` on.
fn is(mark: &Mark, first: usize, want: &Wanted) -> bool {
    mark.kind == want.0
        && mark.at.checked_sub(first) == Some(want.1)
        && mark.which == want.2
        && mark.extent == want.3
}

// The marks are those, in this order, and no others.
fn are(marks: &[Mark], first: usize, want: &[Wanted]) -> bool {
    if marks.len() != want.len() {
        return false;
    }
    for i in 0..marks.len() {
        if !is(&marks[i], first, &want[i]) {
            return false;
        }
    }
    true
}

// An IPv4 header alone, of 20 bytes.
const ONE: &[Wanted] = &[(Kind::Ip, 0, 0, 20), (Kind::Ip, 0, 1, 20)];

// Both headers of a packet.
const BOTH: &[Wanted] = &[
    (Kind::Ether, 0, 0, 14),
    (Kind::Ether, 0, 1, 14),
    (Kind::Ip, 14, 0, 20),
    (Kind::Ip, 14, 1, 20),
];

// The two of them.
const FIRST: &[Wanted] = &[(Kind::Ether, 0, 0, 14), (Kind::Ether, 0, 1, 14)];

const SECOND: &[Wanted] = &[(Kind::Ip, 14, 0, 20), (Kind::Ip, 14, 1, 20)];

const SEARCHES: &[(&[u8], &[Wanted])] = &[
    (UDP, ONE),
    (
        b"\x45\x00\x00\x73\x00\x00\x40\x00\x40\x11\xb8\x62\xc0\xa8\x00\x01\xc0\xa8\x00\xc7",
        &[],
    ),
    // a wrong checksum ahead of a right one
    (
        b"\x45\x00\x00\x73\x00\x00\x40\x00\x40\x11\xb8\x62\xc0\xa8\x00\x01\xc0\xa8\x00\xc7\x45\x00\x00\x73\x00\x00\x40\x00\x40\x11\xb8\x61\xc0\xa8\x00\x01\xc0\xa8\x00\xc7",
        &[(Kind::Ip, 20, 0, 20), (Kind::Ip, 20, 1, 20)],
    ),
    // one word of options
    (
        b"\x46\x00\x00\x18\x00\x00\x40\x00\x40\x11\xb6\xbb\xc0\xa8\x00\x01\xc0\xa8\x00\xc7\x01\x01\x00\x00",
        &[(Kind::Ip, 0, 0, 24), (Kind::Ip, 0, 1, 24)],
    ),
    (
        b"\x46\x00\x00\x18\x00\x00\x40\x00\x40\x11\xb6\xbb\xc0\xa8\x00\x01\xc0\xa8\x00\xc7\x01\x01\x00",
        &[],
    ),
    // ten words of options
    (
        b"\x4f\x00\x00\x3c\x00\x00\x40\x00\x40\x11\x9a\x84\xc0\xa8\x00\x01\xc0\xa8\x00\xc7\x01\x01\x01\x01\x01\x01\x01\x01\x01\x01\x01\x01\x01\x01\x01\x01\x01\x01\x01\x01\x01\x01\x01\x01\x01\x01\x01\x01\x01\x01\x01\x01\x01\x01\x01\x01\x01\x01\x01\x01",
        &[(Kind::Ip, 0, 0, 60), (Kind::Ip, 0, 1, 60)],
    ),
    // four words
    (
        b"\x44\x00\x00\x73\x00\x00\x40\x00\x40\x11\x7a\xd1\xc0\xa8\x00\x01\xc0\xa8\x00\xc7",
        &[],
    ),
    // a total length of 20, and of 19
    (
        b"\x45\x00\x00\x14\x00\x00\x40\x00\x40\x11\xb8\xc0\xc0\xa8\x00\x01\xc0\xa8\x00\xc7",
        ONE,
    ),
    (
        b"\x45\x00\x00\x13\x00\x00\x40\x00\x40\x11\xb8\xc1\xc0\xa8\x00\x01\xc0\xa8\x00\xc7",
        &[],
    ),
    // a time to live of 0
    (
        b"\x45\x00\x00\x73\x00\x00\x40\x00\x00\x11\xf8\x61\xc0\xa8\x00\x01\xc0\xa8\x00\xc7",
        &[],
    ),
    // ICMP, TCP and IGMP
    (
        b"\x45\x00\x00\x73\x00\x00\x40\x00\x40\x01\xb8\x71\xc0\xa8\x00\x01\xc0\xa8\x00\xc7",
        ONE,
    ),
    (
        b"\x45\x00\x00\x73\x00\x00\x40\x00\x40\x06\xb8\x6c\xc0\xa8\x00\x01\xc0\xa8\x00\xc7",
        ONE,
    ),
    (
        b"\x45\x00\x00\x73\x00\x00\x40\x00\x40\x02\xb8\x70\xc0\xa8\x00\x01\xc0\xa8\x00\xc7",
        &[],
    ),
    // from 10.0.0.1 to itself
    (
        b"\x45\x00\x00\x73\x00\x00\x40\x00\x40\x11\x26\x79\x0a\x00\x00\x01\x0a\x00\x00\x01",
        ONE,
    ),
    (PACKET, BOTH),
    // the type of ARP
    (
        b"\x02\x00\x00\x00\x00\x01\x02\x00\x00\x00\xab\xcd\x08\x06\x45\x00\x00\x73\x00\x00\x40\x00\x40\x11\xb8\x61\xc0\xa8\x00\x01\xc0\xa8\x00\xc7",
        &[(Kind::Ip, 14, 0, 20), (Kind::Ip, 14, 1, 20)],
    ),
    // a header whose destination begins another
    (
        b"\x45\x00\x00\x14\x00\x00\x40\x00\x40\x11\x35\x1c\xc0\xa8\x00\x01\x45\x00\x00\x14\x00\x00\x40\x00\x40\x11\xb8\xc0\xc0\xa8\x00\x01\xc0\xa8\x00\xc7",
        &[
            (Kind::Ip, 0, 0, 20),
            (Kind::Ip, 0, 1, 20),
            (Kind::Ip, 16, 0, 20),
            (Kind::Ip, 16, 1, 20),
        ],
    ),
    // one whose source begins with 08 00 and another header
    (
        b"\x45\x00\x00\x14\x00\x00\x40\x00\x40\x11\xdb\x91\x08\x00\x45\x00\x00\x14\x12\x34\x40\x00\x40\x11\xa6\x8c\xc0\xa8\x00\x01\xc0\xa8\x00\xc7",
        &[
            (Kind::Ip, 0, 0, 20),
            (Kind::Ip, 0, 1, 20),
            (Kind::Ether, 0, 0, 14),
            (Kind::Ether, 0, 1, 14),
            (Kind::Ip, 14, 0, 20),
            (Kind::Ip, 14, 1, 20),
        ],
    ),
    (b"", &[]),
];

// A search of the bytes finds these marks.
fn finds(alloc: Global, bytes: &[u8], want: &[Wanted]) -> Result<bool, NoMemory> {
    let mut found = Found::make(alloc);
    find_packets(&Sbuf::child(bytes), &mut found)?;
    Ok(are(found.marks(), 0, want))
}

#[test]
fn each_whole_header_with_a_right_checksum_is_found(rt: HostRuntime) -> Result<(), Fail> {
    for (bytes, want) in SEARCHES {
        assert!(rt; finds(rt.alloc(), bytes, want)?, "at {bytes:?}");
    }
    Ok(())
}

// The first owned place and the one behind the last, counted from the packet's first byte, and the marks. From
// 0 on, the bytes ahead are owned too.
const OWNED: &[(usize, usize, &[Wanted])] = &[
    (0, 0, &[]),
    (0, 1, FIRST),
    (0, 14, FIRST),
    (0, 15, BOTH),
    (0, 34, BOTH),
    (1, 14, &[]),
    (1, 15, SECOND),
    (14, 34, SECOND),
    (15, 34, &[]),
];

// The packet behind so many bytes, and with so many behind it.
fn packet_at(alloc: Global, offset: usize, behind: usize) -> Result<Vec<u8>, NoMemory> {
    let mut bytes = Vec::new(alloc);
    bytes.resize(offset, b'.')?;
    bytes.extend_from_slice(PACKET)?;
    for _ in 0..behind {
        bytes.push(b'.')?;
    }
    Ok(bytes)
}

// The first owned place of the row, in bytes in which the packet begins at `offset`.
fn first_owned(offset: usize, from: usize) -> usize {
    if from == 0 {
        return 0;
    }
    offset.saturating_add(from)
}

// A search of the bytes, in which the packet begins at `offset`, finds the row's marks.
fn finds_owned(
    alloc: Global,
    bytes: &[u8],
    offset: usize,
    row: &(usize, usize, &[Wanted]),
) -> Result<bool, NoMemory> {
    let from = first_owned(offset, row.0);
    let to = offset.saturating_add(row.1);
    if from > to || to > bytes.len() {
        return Ok(false);
    }
    let mut found = Found::make(alloc);
    find_packets(&Sbuf::of(bytes, from, to, 0), &mut found)?;
    Ok(are(found.marks(), offset, row.2))
}

// Each row's marks are found at this offset.
fn finds_all(alloc: Global, offset: usize, behind: usize) -> Result<bool, NoMemory> {
    let bytes = packet_at(alloc, offset, behind)?;
    for row in OWNED {
        if !finds_owned(alloc, bytes.as_slice(), offset, row)? {
            return Ok(false);
        }
    }
    Ok(true)
}

#[test]
fn at_each_offset_a_header_belongs_to_the_owner_of_its_first_byte(
    rt: HostRuntime,
) -> Result<(), Fail> {
    for offset in 0..64 {
        assert!(rt; finds_all(rt.alloc(), offset, 0)?, "at {offset}");
        assert!(rt;
            finds_all(rt.alloc(), offset, 90)?,
            "at {offset}, with more behind"
        );
    }
    Ok(())
}
