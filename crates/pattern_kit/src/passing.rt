// How places are passed at which a pattern has no match. A search for the pattern itself may pass them where
// the pattern has no assertion. Where it has some, what they see differs from place to place; then the
// search is for the same pattern without them, which matches wherever the pattern does.
ghost use Rattle.std.specs.Prelude.{◌≡◌, IfSome};
ghost use Rattle.regex.specs.Patterns.{Re, SameCaptures};
ghost use Rattle.regex_hir.specs.Meaning.{meaning};
ghost use Rattle.regex_meta.specs.Programs.{pattern_of};
ghost use Rattle.pattern_kit.specs.Assertions.{stripped};
ghost use Rattle.pattern_kit.specs.Passing.{MayPass};
ghost use Rattle.pattern_kit.specs.Readings.{HasReading, IsTreeOf};

use crate::assertions::{is_plain, strip};
use regex_meta::Program;
use regex_syntax::{Config, Parsed};
use std::alloc::Global;

// How large the tables of a compiled pattern may be, in bytes; `regex` has the same limit.
const SIZE_LIMIT: usize = 10 * 1024 * 1024;

// A compiled pattern.
pub struct Sieve {
    pub program: Program,
}

impl Drop for Sieve {
    fn drop(self) {
        let Sieve { program: _program } = self;
    }
}

// How places are passed.
#[derive(Drop)]
pub enum Passing {
    // By a search for the pattern itself.
    ByItself,
    // By a search for the pattern without its assertions.
    BySieve(Sieve),
    // Not at all: each place is judged.
    Never,
}

// A text that was read.
struct Tree {
    parsed: Parsed,
}

impl Drop for Tree {
    fn drop(self) {
        let Tree { parsed: _parsed } = self;
    }
}

// What is read in the text.
fn tree_of(alloc: Global, text: &str) -> Option<Tree>
    ensures { IfSome result (λ tree. IsTreeOf text.now tree.parsed.hir) }
{
    let mut config = Config::default();
    config.utf8 = false;
    match regex_syntax::parse(alloc, text, &config) {
        Ok(parsed) => Some(Tree { parsed }),
        Err(_) => None,
    }
}

// What was read, compiled without its assertions.
fn sieve_of(alloc: Global, tree: &Tree) -> Option<Sieve>
    ensures { IfSome result (λ sieve. pattern_of sieve.program ≡ stripped tree.now.parsed.hir) }
{
    let Ok(groups) = u32::try_from(tree.parsed.names.len()) else {
        return None;
    };
    let Ok(hir) = strip(alloc, &tree.parsed.hir) else {
        return None;
    };
    let Ok(program) = Program::new(alloc, hir, groups, SIZE_LIMIT) else {
        return None;
    };
    Some(Sieve { program })
}

// How places are passed at which there is no match of what was read.
fn passing_of_tree(alloc: Global, tree: &Tree) -> Passing
    ensures { (pattern : Re) → SameCaptures pattern (meaning tree.now.parsed.hir) → MayPass pattern result }
{
    if is_plain(&tree.parsed.hir) {
        return Passing::ByItself;
    }
    match sieve_of(alloc, tree) {
        Some(sieve) => Passing::BySieve(sieve),
        None => Passing::Never,
    }
}

// How places are passed at which the text's pattern has no match. Without memory, or room for what is
// compiled, none are passed.
pub fn passing_of(alloc: Global, text: &str) -> Passing
    ensures { (pattern : Re) → HasReading text.now pattern → MayPass pattern result }
{
    match tree_of(alloc, text) {
        Some(tree) => passing_of_tree(alloc, &tree),
        None => Passing::Never,
    }
}
