//! What the chain of digests shows. Nothing is done here: the clauses are the laws.

ghost use Rattle.jb_slice_file.specs.ChainLaws.{FrontsAreChained, LastLinksIdentifyLists};

/// A change to a chain is seen, unless its last link is changed too. A missing end isn't seen.
#[tactic(auto, using(crate::proofs::Chains::told, crate::proofs::Chains::front))]
pub fn chains_identify_lists()
    ensures changed { LastLinksIdentifyLists }
    ensures front { FrontsAreChained }
{}
