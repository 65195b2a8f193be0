// Pages of an image, and the bytes that each is judged by.
ghost use Rattle.std.specs.Prelude.{◌≡◌, ◌*◌, ◌^◌, ◌<◌, ◌≤◌, ℕ};

use sbuf_nest::LOOK_BEFORE;

/// How many bytes a page has at least.
pub const PAGE_LEAST: u64 = 512;

/// How many bytes a page has at most.
pub const PAGE_MOST: u64 = 16_777_216;

/// How many bytes a margin has at least: as many as a Look sees from its place on.
pub const MARGIN_LEAST: u64 = 131_072;

/// How many bytes a margin has at most.
pub const MARGIN_MOST: u64 = 4_194_304;

/// The bytes that a page is judged by, as places in the image. Those from `own_from` up to `own_to` are the
/// page's own.
#[derive(Clone, Copy, Debug, PartialEq, Eq)]
pub struct Window {
    /// The first byte: up to `LOOK_BEFORE` bytes ahead of the page.
    pub from: u64,
    /// The first place of the page.
    pub own_from: u64,
    /// The place behind the last one of the page.
    pub own_to: u64,
    /// The place behind the last byte: up to a margin behind the page.
    pub to: u64,
}

/// The pages of an image: pages of one size, of which the last one has what is left. They are counted from
/// 0 on.
#[derive(Clone, Copy, Debug, PartialEq, Eq)]
pub struct Pages {
    /// How many bytes the image has.
    pub size: u64,
    /// How many bytes a page has.
    pub page: u64,
    /// How many bytes behind a page its window has.
    pub margin: u64,
    ghost small: { size < 2 ^ 63 },
    ghost page_least: { 512 ≤ page },
    ghost page_most: { page ≤ 16777216 },
    ghost margin_least: { 131072 ≤ margin },
    ghost margin_most: { margin ≤ 4194304 },
}

impl Pages {
    ghost use Rattle.std.specs.Int.{div_ceil};
    ghost use Rattle.page_split.specs.Pages.{IsPage, page_end, window_of};
    ghost use Rattle.page_split.specs.declared.pages.TheConstants.{PAGE_LEAST, PAGE_MOST, MARGIN_LEAST, MARGIN_MOST};

    /// The pages of an image of so many bytes, with the size of a page and that of a margin. It asks for
    /// an image of fewer than 2^63 bytes, a page of `PAGE_LEAST` to `PAGE_MOST` bytes, and a margin of
    /// `MARGIN_LEAST` to `MARGIN_MOST` bytes.
    pub fn make(size: u64, page: u64, margin: u64) -> Pages
        requires small { size < 2 ^ 63 }
        requires page_least { PAGE_LEAST ≤ page }
        requires page_most { page ≤ PAGE_MOST }
        requires margin_least { MARGIN_LEAST ≤ margin }
        requires margin_most { margin ≤ MARGIN_MOST }
        ensures size { result.size ≡ size }
        ensures page { result.page ≡ page }
        ensures margin { result.margin ≡ margin }
    {
        Pages { size, page, margin }
    }

    /// How many pages there are: as many as begin within the image. An empty image has none.
    pub fn count(&self) -> u64
        ensures count { result ≡ div_ceil self.now.size self.now.page }
        ensures below { (page : ℕ) → page < result → IsPage self.now.size self.now.page page }
        ensures all { (page : ℕ) → IsPage self.now.size self.now.page page → page < result }
    {
        self.size.div_ceil(self.page)
    }

    /// The places of a page: the first one, and the one behind the last. It asks for a page below the count.
    pub fn own(&self, page: u64) -> (u64, u64)
        requires { IsPage self.now.size self.now.page page }
        ensures { result ≡ (page * self.now.page, page_end self.now.size self.now.page page) }
    {
        let from = page * self.page;
        (from, (from + self.page).min(self.size))
    }

    /// The window of a page: its places, up to `LOOK_BEFORE` bytes ahead of it and up to a margin behind
    /// it, as far as the image goes. It asks for a page below the count.
    pub fn window(&self, page: u64) -> Window
        requires { IsPage self.now.size self.now.page page }
        ensures { result ≡ window_of self.now.size self.now.page self.now.margin page }
    {
        let (own_from, own_to) = self.own(page);
        Window {
            from: own_from.saturating_sub(LOOK_BEFORE as u64),
            own_from,
            own_to,
            to: (own_to + self.margin).min(self.size),
        }
    }
}
