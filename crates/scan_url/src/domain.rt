// The domain at a place.
ghost use Rattle.std.specs.Prelude.{◌≡◌, ◌==◌, ◌≤◌, length, IfSome, take_while};
ghost use Rattle.std.specs.List.{prefix_len, suffix_len};
ghost use Rattle.byte_kit.specs.Classes.{host_class, is_one_of};
ghost use Rattle.sbuf_nest.specs.Around.{seen};
ghost use Rattle.scan_url.specs.Domain.{ends_caseless, ends_with_scheme, authority_class, without_dots, is_domain, domain_of};

use crate::url::begins_with;
use crate::{HOST_MOST, URL_MOST};
use byte_kit::is_host;
use sbuf_nest::Look;

/// The length in bytes of the domain at the place: the host behind one of the schemes `http://`,
/// `https://` and `ftp://` in any case (RFC 3986 section 3.2.2), at most `HOST_MOST` bytes and then
/// without the dots at its end. None exactly where no scheme ends at the place, the host is empty,
/// begins with a dot or has none, or an `@` stands in the authority (section 3.2), of which
/// `URL_MOST` bytes are looked at.
#[tactic(auto, unfolding(crate::specs::Domain::domain_of))]
pub fn domain_len(look: &Look) -> Option<u32>
    ensures shape { result ≡ domain_of (seen look.now) }
    ensures within { IfSome result (λ bytes. bytes ≤ length look.now.after.now) }
{
    if !follows_scheme(look.before) {
        return None;
    }
    let after = look.after;
    let (near, _) = after.split_at(HOST_MOST.min(after.len()));
    let host = host_of(near);
    if !is_domain(host) {
        return None;
    }
    let (near, _) = after.split_at(URL_MOST.min(after.len()));
    if has_userinfo(near) {
        return None;
    }
    Some(host.len() as u32)
}

// A scheme ends the bytes.
#[tactic(auto, unfolding(crate::specs::Domain::ends_with_scheme))]
fn follows_scheme(bytes: &[u8]) -> bool
    ensures { result ≡ ends_with_scheme bytes.now }
{
    ends_with(bytes, b"http://") || ends_with(bytes, b"https://") || ends_with(bytes, b"ftp://")
}

// The bytes end with the word, which is in lower case, whatever the case of their letters.
fn ends_with(bytes: &[u8], word: &[u8]) -> bool
    ensures { result ≡ ends_caseless word.now bytes.now }
{
    if bytes.len() < word.len() {
        return false;
    }
    begins_with(bytes.split_at(bytes.len() - word.len()).1, word)
}

// The host that the bytes begin with, without the dots at its end.
fn host_of(near: &[u8]) -> &[u8]
    ensures host { result.now ≡ without_dots (take_while host_class near.now) }
    ensures within { length result.now ≤ length near.now }
{
    let (host, _) = near.split_at(host_run(near));
    host.split_at(host.len() - dots_behind(host)).0
}

// How many bytes of a host stand in front.
fn host_run(near: &[u8]) -> usize
    ensures run { result ≡ prefix_len host_class near.now }
    ensures within { result ≤ length near.now }
{
    near.iter().take_while(|byte| is_host(**byte)).count()
}

// How many dots stand at the end.
fn dots_behind(host: &[u8]) -> usize
    ensures dots { result ≡ suffix_len (λ byte. byte == 46) host.now }
    ensures within { result ≤ length host.now }
{
    host.iter().rev().take_while(|byte| **byte == b'.').count()
}

// The host has a dot, but none in front.
fn is_domain(host: &[u8]) -> bool
    ensures { result ≡ is_domain host.now }
{
    if host.is_empty() {
        return false;
    }
    if host[0] == b'.' {
        return false;
    }
    has_dot(host)
}

// A dot stands in the bytes.
fn has_dot(bytes: &[u8]) -> bool
    ensures { result ≡ is_one_of bytes.now 46 }
{
    bytes.iter().any(|byte| b'.' == *byte)
}

// An `@` stands in the authority that the bytes begin with.
fn has_userinfo(near: &[u8]) -> bool
    ensures { result ≡ is_one_of (take_while authority_class near.now) 64 }
{
    near.iter()
        .take_while(|byte| is_authority(**byte))
        .any(|byte| b'@' == *byte)
}

// A byte of a URL's authority.
#[inline]
fn is_authority(byte: u8) -> bool
    ensures { result ≡ authority_class byte }
{
    AUTHORITY_BYTES[byte as usize] != 0
}

static AUTHORITY_BYTES: [u8; 256] = [
    0, 0, 0, 0, 0, 0, 0, 0, 0, 0, 0, 0, 0, 0, 0, 0, 0, 0, 0, 0, 0, 0, 0, 0, 0, 0, 0, 0, 0, 0, 0, 0,
    0, 1, 0, 0, 1, 1, 1, 1, 1, 1, 1, 1, 1, 1, 1, 0, 1, 1, 1, 1, 1, 1, 1, 1, 1, 1, 1, 1, 0, 1, 0, 0,
    1, 1, 1, 1, 1, 1, 1, 1, 1, 1, 1, 1, 1, 1, 1, 1, 1, 1, 1, 1, 1, 1, 1, 1, 1, 1, 1, 1, 0, 1, 0, 1,
    0, 1, 1, 1, 1, 1, 1, 1, 1, 1, 1, 1, 1, 1, 1, 1, 1, 1, 1, 1, 1, 1, 1, 1, 1, 1, 1, 0, 0, 0, 1, 0,
    0, 0, 0, 0, 0, 0, 0, 0, 0, 0, 0, 0, 0, 0, 0, 0, 0, 0, 0, 0, 0, 0, 0, 0, 0, 0, 0, 0, 0, 0, 0, 0,
    0, 0, 0, 0, 0, 0, 0, 0, 0, 0, 0, 0, 0, 0, 0, 0, 0, 0, 0, 0, 0, 0, 0, 0, 0, 0, 0, 0, 0, 0, 0, 0,
    0, 0, 0, 0, 0, 0, 0, 0, 0, 0, 0, 0, 0, 0, 0, 0, 0, 0, 0, 0, 0, 0, 0, 0, 0, 0, 0, 0, 0, 0, 0, 0,
    0, 0, 0, 0, 0, 0, 0, 0, 0, 0, 0, 0, 0, 0, 0, 0, 0, 0, 0, 0, 0, 0, 0, 0, 0, 0, 0, 0, 0, 0, 0, 0,
];
