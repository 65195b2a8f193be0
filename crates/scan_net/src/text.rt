// The texts of addresses.
ghost use Rattle.std.specs.Prelude.{◌≡◌, ◌^◌, ◌<◌, codes, slice_index, IfOk};
ghost use Rattle.scan_net.specs.Fields.{ip_text_of, ether_text_of};

use byte_kit::{Bytes, NoMemory, dec_into};
use std::alloc::Global;

// How many bytes the longest text of an IPv4 address has.
const IP_TEXT_MOST: usize = b"255.255.255.255".len();

/// The text of an IPv4 address (RFC 791 section 3.1): its four bytes as decimals with dots between
/// them, the high byte first. Its one refusal is want of memory.
pub fn ip_text(alloc: Global, address: u32) -> Result<Bytes, NoMemory>
    ensures { IfOk result (λ text. text ≡ ip_text_of address) }
{
    let [first, second, third, fourth] = address.to_be_bytes();
    let mut text = Vec::with_capacity(alloc, IP_TEXT_MOST)?;
    dec_into(u64::from(first), &mut text)?;
    text.push(b'.')?;
    dec_into(u64::from(second), &mut text)?;
    text.push(b'.')?;
    dec_into(u64::from(third), &mut text)?;
    text.push(b'.')?;
    dec_into(u64::from(fourth), &mut text)?;
    Ok(Bytes::from(text))
}

/// The text of an Ethernet address, a number below 2^48 (RFC 894): its six bytes as pairs of
/// hexadecimal digits in lower case with colons between them, the high byte first. Its one refusal is
/// want of memory.
pub fn ether_text(alloc: Global, address: u64) -> Result<Bytes, NoMemory>
    requires { address < 2 ^ 48 }
    ensures { IfOk result (λ text. text ≡ ether_text_of address) }
{
    let [_, _, a, b, c, d, e, f] = address.to_be_bytes();
    let text = [
        hex(a / 16),
        hex(a % 16),
        b':',
        hex(b / 16),
        hex(b % 16),
        b':',
        hex(c / 16),
        hex(c % 16),
        b':',
        hex(d / 16),
        hex(d % 16),
        b':',
        hex(e / 16),
        hex(e % 16),
        b':',
        hex(f / 16),
        hex(f % 16),
    ];
    Bytes::copy(alloc, &text)
}

static HEX_DIGITS: [u8; 16] = *b"0123456789abcdef";

// The hexadecimal digit in lower case.
#[inline]
fn hex(digit: u8) -> u8
    requires { digit < 16 }
    ensures { result ≡ slice_index (codes "0123456789abcdef") digit }
{
    HEX_DIGITS[usize::from(digit)]
}
