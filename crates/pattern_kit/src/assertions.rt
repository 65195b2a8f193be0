// Assertions in a pattern, such as `^` and `\b`, which read no byte: whether it has any, and the same
// pattern without them.
ghost use Rattle.std.specs.Prelude.{◌≡◌, true, map, IsTrue, IfOk};
ghost use Rattle.std.specs.List.{list_all};
ghost use Rattle.regex_hir.specs.Meaning.{meaning};
ghost use Rattle.pattern_kit.specs.Assertions.{is_plain, stripped};

use regex_hir::Hir;
use std::alloc::{AllocError, Global};

// Whether the pattern has no assertion.
#[cycle(plain)]
pub fn is_plain(hir: &Hir) -> bool
    ensures { IsTrue result → is_plain (meaning hir.now) ≡ true }
{
    match hir {
        Hir::Empty => true,
        Hir::Literal(_) => true,
        Hir::Bytes(_) => true,
        Hir::Chars(_) => true,
        Hir::Look(_) => false,
        Hir::Repetition { sub, .. } => is_plain(sub),
        Hir::Capture { sub, .. } => is_plain(sub),
        Hir::Concat(subs) => are_plain(subs),
        Hir::Alternation(subs) => are_plain(subs),
    }
}

#[cycle(plain)]
fn are_plain(subs: &[Hir]) -> bool
    ensures { IsTrue result → list_all is_plain (map meaning subs.now) ≡ true }
{
    for i in (0..subs.len()).rev() {
        if !is_plain(&subs[i]) {
            return false;
        }
    }
    true
}

// The pattern with nothing in place of each assertion.
#[cycle(strip)]
pub fn strip(alloc: Global, hir: &Hir) -> Result<Hir, AllocError>
    ensures { IfOk result (λ new. meaning new ≡ stripped hir.now) }
{
    match hir {
        Hir::Empty => Ok(Hir::Empty),
        Hir::Literal(bytes) => Ok(Hir::Literal(Vec::from_slice(alloc, bytes)?)),
        Hir::Bytes(class) => Ok(Hir::Bytes(class.clone()?)),
        Hir::Chars(class) => Ok(Hir::Chars(class.clone()?)),
        Hir::Look(_) => Ok(Hir::Empty),
        Hir::Repetition {
            min,
            max,
            greedy,
            sub,
        } => Ok(Hir::Repetition {
            min: *min,
            max: *max,
            greedy: *greedy,
            sub: Box::new(alloc, strip(alloc, sub)?)?,
        }),
        Hir::Capture { index, sub } => Ok(Hir::Capture {
            index: *index,
            sub: Box::new(alloc, strip(alloc, sub)?)?,
        }),
        Hir::Concat(subs) => Ok(Hir::Concat(strip_all(alloc, subs)?)),
        Hir::Alternation(subs) => Ok(Hir::Alternation(strip_all(alloc, subs)?)),
    }
}

#[cycle(strip)]
fn strip_all(alloc: Global, subs: &[Hir]) -> Result<Vec<Hir>, AllocError>
    ensures { IfOk result (λ new. map meaning new.items ≡ map stripped subs.now) }
{
    let mut all = Vec::new(alloc);
    for i in 0..subs.len() {
        all.push(strip(alloc, &subs[i])?)?;
    }
    Ok(all)
}
