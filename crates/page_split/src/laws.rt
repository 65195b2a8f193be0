// What windows have, and what the lists of all pages are together. There is nothing to run.
ghost use Rattle.page_split.specs.Features.{PagesJoin};
ghost use Rattle.page_split.specs.Pages.{WindowsSuffice};

/// The window of a page has all that its places are judged by: the Look of each in the window is its Look
/// in the image.
#[tactic(auto, using(crate::proofs::Windows::windows_suffice))]
pub fn windows_suffice()
    ensures { WindowsSuffice }
{}

/// The features of as many pages as hold an image, one page behind the other, are those of the image.
#[tactic(auto, using(crate::proofs::Joins::pages_join))]
pub fn pages_join()
    ensures { PagesJoin }
{}
