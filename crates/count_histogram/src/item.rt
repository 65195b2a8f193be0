// What is counted of a feature.
ghost use Rattle.std.specs.Prelude.{◌≡◌, ◌++◌, ◌≤◌, codes, length, position, unwrap_or, IsTrue, IfOk, OnOk, OnErr};
ghost use Rattle.std.specs.List.{position_or_len};
ghost use Rattle.std.specs.Str.{str_to_ascii_lowercase};
ghost use Rattle.byte_kit.specs.Classes.{is_one_of};
ghost use Rattle.scan_url.specs.Url.{scheme_of, starts_caseless};
ghost use Rattle.count_histogram.specs.Rules.{item_of, service_of};

use crate::Rule;
use byte_kit::{Bytes, NoMemory};
use std::alloc::Global;

/// The item of a feature: by [`Rule::Service`] the scheme of a URL and what follows it up to the first `/`,
/// `?` or `#`, in lower case, by [`Rule::Domain`] the feature in lower case, and otherwise the feature as it
/// is. A URL without a scheme ends at the first of those three. The one refusal is want of memory.
pub fn item_of(alloc: Global, rule: Rule, feature: &[u8]) -> Result<Bytes, NoMemory>
    ensures { IfOk result (λ item. item ≡ item_of rule feature.now) }
{
    let mut item = Vec::new(alloc);
    item_into(rule, feature, &mut item)?;
    Ok(Bytes::from(item))
}

/// Appends the item of a feature, as [`item_of`] gives it. The one refusal is want of memory, which leaves
/// the items as they were.
pub fn item_into(rule: Rule, feature: &[u8], into: &mut Vec<u8>) -> Result<(), NoMemory>
    ensures appended { OnOk result (into.new.items ≡ into.old.items ++ item_of rule feature.now) }
    ensures same { OnErr result (into.new.items ≡ into.old.items) }
{
    match rule {
        Rule::Service => lower_case_into(service(feature), into),
        Rule::Domain => lower_case_into(feature, into),
        Rule::Url | Rule::Ip | Rule::Ether | Rule::Find => {
            into.extend_from_slice(feature)?;
            Ok(())
        }
    }
}

// Appends the text in lower case.
fn lower_case_into(text: &[u8], into: &mut Vec<u8>) -> Result<(), NoMemory>
    ensures appended { OnOk result (into.new.items ≡ into.old.items ++ str_to_ascii_lowercase text.now) }
    ensures same { OnErr result (into.new.items ≡ into.old.items) }
{
    let held = into.len();
    into.extend_from_slice(text)?;
    let (_, added) = into.as_mut_slice().split_at_mut(held);
    added.make_ascii_lowercase();
    Ok(())
}

// The front of a URL that is its service, but for the case of letters.
#[tactic(auto, using(crate::proofs::Services::two_fronts))]
fn service(url: &[u8]) -> &[u8]
    ensures { str_to_ascii_lowercase result.now ≡ service_of url.now }
{
    let scheme = scheme_len(url);
    let (_, rest) = url.split_at(scheme);
    url.split_at(scheme + authority_len(rest)).0
}

// How many bytes stand ahead of a path, a query or a fragment.
#[tactic(auto, using(crate::proofs::Services::or_length))]
fn authority_len(bytes: &[u8]) -> usize
    ensures at { result ≡ position_or_len (is_one_of (codes "/?#")) bytes.now }
    ensures within { result ≤ length bytes.now }
{
    first_end(bytes).unwrap_or(bytes.len())
}

// The place of the first byte that a path, a query or a fragment begins with.
fn first_end(bytes: &[u8]) -> Option<usize>
    ensures { result ≡ position (is_one_of (codes "/?#")) bytes.now }
{
    bytes.iter().position(|byte| ends_authority(*byte))
}

// A path, a query or a fragment begins with the byte.
fn ends_authority(byte: u8) -> bool
    ensures { result ≡ is_one_of (codes "/?#") byte }
{
    matches!(byte, b'/' | b'?' | b'#')
}

// The length of the scheme that a URL begins with, 0 where there is none.
#[tactic(auto, unfolding(scan_url::specs::Url::scheme_of))]
fn scheme_len(url: &[u8]) -> usize
    ensures scheme { result ≡ unwrap_or (scheme_of url.now) 0 }
    ensures within { result ≤ length url.now }
{
    if begins_with(url, b"http://") {
        7
    } else if begins_with(url, b"https://") {
        8
    } else if begins_with(url, b"ftp://") {
        6
    } else {
        0
    }
}

// The bytes begin with a word in lower case, whatever the case of their letters.
fn begins_with(bytes: &[u8], word: &[u8]) -> bool
    requires { str_to_ascii_lowercase word.now ≡ word.now }
    ensures begins { result ≡ starts_caseless word.now bytes.now }
    ensures within { IsTrue result → length word.now ≤ length bytes.now }
{
    if bytes.len() < word.len() {
        return false;
    }
    bytes.split_at(word.len()).0.eq_ignore_ascii_case(word)
}
