// A packet: an Ethernet header, and an IPv4 header behind it.
ghost use Rattle.std.specs.Prelude.{◌≡◌, ◌≤◌, ◌+◌, length};
ghost use Rattle.byte_kit.specs.Numbers.{be16};
ghost use Rattle.image_gen.specs.Packet.{add_words, checksum_of, ipv4_header};

// The Ethernet header of each packet.
pub(crate) static ETHERNET: [u8; 14] = [2, 0, 0, 0, 0, 1, 2, 0, 0, 0, 0, 2, 8, 0];

// The IPv4 header of a packet between the hosts with these last bytes of their addresses.
pub(crate) fn ipv4_header(from: u8, to: u8) -> [u8; 20]
    ensures { result ≡ ipv4_header from to }
{
    let mut header = [
        0x45, 0, 0, 0x1c, 0, 0, 0x40, 0, 0x40, 0x11, 0, 0, 192, 0, 2, from, 198, 51, 100, to,
    ];
    let [high, low] = checksum_of(&header).to_be_bytes();
    header[10] = high;
    header[11] = low;
    header
}

// The checksum of a header whose own checksum is still zero.
fn checksum_of(header: &[u8]) -> u16
    ensures { result ≡ checksum_of header.now }
{
    let mut sum = 0;
    for at in 0..header.len() / 2 {
        sum = add_words(sum, word(header, 2 * at));
    }
    !sum
}

// The ones' complement sum of two words: a carry comes back as 1.
fn add_words(a: u16, b: u16) -> u16
    ensures { result ≡ add_words a b }
{
    let (sum, carries) = a.overflowing_add(b);
    sum + u16::from(carries)
}

// The two bytes from `at` on as a number, the high one first.
fn word(bytes: &[u8], at: usize) -> u16
    requires { at + 2 ≤ length bytes.now }
    ensures { result ≡ be16 bytes.now at }
{
    u16::from_be_bytes([bytes[at], bytes[at + 1]])
}
