// The contexts of features.
use crate::tests::{Case, DOMAIN, FIND, URL, failing};
use forensic_path::Kind::{Domain, Find, Url};
use std::test::Fail;

const IN_CONTEXT: &[Case] = &[
    (
        b"abc http://a.b/ def",
        (4, 5),
        (URL, 16, b"", &[]),
        &[(Url, 4, "http://a.b/")],
        &["abc http://a.b/ def"],
    ),
    (
        b"abc http://a.b/ def",
        (4, 5),
        (URL, 2, b"", &[]),
        &[(Url, 4, "http://a.b/")],
        &["c http://a.b/ d"],
    ),
    (
        b"abc http://a.b/ def",
        (11, 12),
        (DOMAIN, 5, b"", &[]),
        &[(Domain, 11, "a.b")],
        &["tp://a.b/ def"],
    ),
    (
        b"abc http://a.b/ def",
        (11, 12),
        (DOMAIN, 0, b"", &[]),
        &[(Domain, 11, "a.b")],
        &["a.b"],
    ),
    (
        b"xaab",
        (0, 4),
        (FIND, 1, b"aab", &["ab", "a"]),
        &[
            (Find, 1, "aab"),
            (Find, 1, "a"),
            (Find, 2, "ab"),
            (Find, 2, "a"),
        ],
        &["xaab", "xaa", "aab", "aab"],
    ),
    (
        b"xaab",
        (0, 4),
        (FIND, 0, b"", &["ab"]),
        &[(Find, 2, "ab")],
        &["ab"],
    ),
];

#[test]
fn a_context_ends_with_the_buffer_or_the_reach(rt: HostRuntime) -> Result<(), Fail> {
    assert_eq!(rt; failing(rt.alloc(), IN_CONTEXT)?, None);
    Ok(())
}
