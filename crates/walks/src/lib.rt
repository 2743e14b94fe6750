//! The walk of a check by its definition: what is asked of each term, which type it has, and what is told when a question is answered with no.
//! The definitions are in specs/; the loop that carries them out stands above.
#![tactic(auto)]

pub mod fault;
pub mod finding;

ghost use Rattle.walks.specs.Sense.{WalkAgain, WalkDecides};

/// The walk of a job decides its typing: it finds the least type that the rules give the job's term, or shows that they give it none; and it writes to one place per term at most.
#[tactic(auto, using(crate::proofs::Linking::walk_decides_lem))]
pub fn walk_decides()
    ensures { WalkDecides }
{}

/// A walk tells the same whatever stands in the table from place `t` up.
#[tactic(auto, using(crate::proofs::Linking::walk_again_lem))]
pub fn walk_again()
    ensures { WalkAgain }
{}
