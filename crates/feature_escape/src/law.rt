// What the lenient reading does to escapes, whatever the bytes. There is nothing to run.
ghost use Rattle.feature_escape.specs.Escape.{LenientUndoesEscape};

/// The lenient reading of the escape of any bytes is these bytes.
#[tactic(auto, using(crate::proofs::LenientLaw::lenient_undoes))]
pub fn lenient_undoes_escape()
    ensures { LenientUndoesEscape }
{}
