// Numbers of two, four and eight bytes at a place of a buffer. A place at which they are not all there
// has none, also one past the end.
ghost use Rattle.std.specs.Prelude.{◌≡◌, ◌+◌, ◌≤◌, length};
ghost use Rattle.std.specs.Option.{SomeIff};
ghost use Rattle.byte_kit.specs.Numbers.{be16, be32, le16, le32, le64, le16_bytes, le32_bytes, le64_bytes};

/// The two bytes from `at` on as a number, the high one first. None where they are not all there.
#[inline]
pub fn be16_at(bytes: &[u8], at: usize) -> Option<u16>
    ensures { SomeIff result (at + 2 ≤ length bytes.now) (be16 bytes.now at) }
{
    Some(u16::from_be_bytes(*bytes.get(at..)?.first_chunk()?))
}

/// The four bytes from `at` on as a number, the high one first. None where they are not all there.
#[inline]
pub fn be32_at(bytes: &[u8], at: usize) -> Option<u32>
    ensures { SomeIff result (at + 4 ≤ length bytes.now) (be32 bytes.now at) }
{
    Some(u32::from_be_bytes(*bytes.get(at..)?.first_chunk()?))
}

/// The two bytes from `at` on as a number, the low one first. None where they are not all there.
#[inline]
pub fn le16_at(bytes: &[u8], at: usize) -> Option<u16>
    ensures { SomeIff result (at + 2 ≤ length bytes.now) (le16 bytes.now at) }
{
    Some(u16::from_le_bytes(*bytes.get(at..)?.first_chunk()?))
}

/// The four bytes from `at` on as a number, the low one first. None where they are not all there.
#[inline]
pub fn le32_at(bytes: &[u8], at: usize) -> Option<u32>
    ensures { SomeIff result (at + 4 ≤ length bytes.now) (le32 bytes.now at) }
{
    Some(u32::from_le_bytes(*bytes.get(at..)?.first_chunk()?))
}

/// The eight bytes from `at` on as a number, the low one first. None where they are not all there.
#[inline]
pub fn le64_at(bytes: &[u8], at: usize) -> Option<u64>
    ensures { SomeIff result (at + 8 ≤ length bytes.now) (le64 bytes.now at) }
{
    Some(u64::from_le_bytes(*bytes.get(at..)?.first_chunk()?))
}

/// The number as two bytes, the low one first.
#[inline]
pub fn put_le16(number: u16) -> [u8; 2]
    ensures { result ≡ le16_bytes number }
{
    u16::to_le_bytes(number)
}

/// The number as four bytes, the low one first.
#[inline]
pub fn put_le32(number: u32) -> [u8; 4]
    ensures { result ≡ le32_bytes number }
{
    u32::to_le_bytes(number)
}

/// The number as eight bytes, the low one first.
#[inline]
pub fn put_le64(number: u64) -> [u8; 8]
    ensures { result ≡ le64_bytes number }
{
    u64::to_le_bytes(number)
}
