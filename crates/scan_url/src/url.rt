// The URL at a place.
ghost use Rattle.std.specs.Prelude.{◌≡◌, ◌≤◌, length, IfSome};
ghost use Rattle.std.specs.List.{prefix_len};
ghost use Rattle.byte_kit.specs.Classes.{url_class};
ghost use Rattle.sbuf_nest.specs.Around.{seen};
ghost use Rattle.scan_url.specs.Url.{starts_caseless, scheme_of, url_of};

use byte_kit::is_url;
use sbuf_nest::Look;

/// The most bytes that a URL has, its scheme included; the most of an authority, too.
pub const URL_MOST: usize = 2048;

/// The most bytes that a host has (RFC 1035 section 2.3.4, without the length bytes).
pub const HOST_MOST: usize = 253;

/// The length in bytes of the URL at the place: one of the schemes `http://`, `https://` and `ftp://`
/// in any case, and the run of URL bytes behind it (RFC 3986 section 3), at most `URL_MOST` bytes in
/// all. None exactly where no scheme stands there or no URL byte follows it.
#[tactic(auto, unfolding(crate::specs::Url::url_of))]
pub fn url_len(look: &Look) -> Option<u32>
    ensures shape { result ≡ url_of (seen look.now) }
    ensures within { IfSome result (λ bytes. bytes ≤ length look.now.after.now) }
{
    let after = look.after;
    let Some(scheme) = scheme_len(after) else {
        return None;
    };
    let (_, rest) = after.split_at(scheme);
    let (near, _) = rest.split_at(rest.len().min(URL_MOST - scheme));
    match url_run(near) {
        0 => None,
        run => Some((scheme + run) as u32),
    }
}

// The length of the scheme that the bytes begin with.
#[tactic(auto, unfolding(crate::specs::Url::scheme_of))]
fn scheme_len(bytes: &[u8]) -> Option<usize>
    ensures scheme { result ≡ scheme_of bytes.now }
    ensures short { IfSome result (λ scheme. scheme ≤ 8) }
    ensures within { IfSome result (λ scheme. scheme ≤ length bytes.now) }
{
    if begins_with(bytes, b"http://") {
        Some(7)
    } else if begins_with(bytes, b"https://") {
        Some(8)
    } else if begins_with(bytes, b"ftp://") {
        Some(6)
    } else {
        None
    }
}

// The bytes begin with the word, which is in lower case, whatever the case of their letters.
pub(crate) fn begins_with(bytes: &[u8], word: &[u8]) -> bool
    ensures { result ≡ starts_caseless word.now bytes.now }
{
    for i in 0..word.len() {
        if i >= bytes.len() {
            return false;
        }
        if bytes[i].to_ascii_lowercase() != word[i] {
            return false;
        }
    }
    true
}

// How many URL bytes stand in front.
fn url_run(bytes: &[u8]) -> usize
    ensures run { result ≡ prefix_len url_class bytes.now }
    ensures within { result ≤ length bytes.now }
{
    bytes.iter().take_while(|byte| is_url(**byte)).count()
}
