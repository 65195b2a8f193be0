// What the features of a place depend on, whatever the bytes. There is nothing to run.
ghost use Rattle.scan_set.specs.Laws.{SameLooksSameFeatures};

/// Two places whose Looks are equal, of whatever buffers, have the same features, but for the place in
/// the image that begins their paths. So a part of an image that has the Look of a place tells all that
/// the image has there.
#[tactic(auto, using(crate::proofs::SameLooks::same_looks))]
pub fn same_looks_same_features()
    ensures { SameLooksSameFeatures }
{}
