//! What the entries of a job's tables stand for: the types and the terms of the calculus.
//! The definitions are in specs/, and each function stands for one fact about them, which specs/ states for every scheme.
#![tactic(auto)]

ghost use Rattle.trees.specs.Facts.{AcceptedClosed, AcceptedCoded, BoundClosed, FormDecides, PrefixKeepsTrees, TreesUnfold};

/// The form scan accepts exactly the jobs that keep the limits, whose entries are as their tags ask, each term but the last named once and each variable bound.
pub fn form_decides()
    ensures { FormDecides }
{}

/// Entries that are appended to a table leave the trees of those before them as they were.
pub fn prefix_keeps_trees()
    ensures { PrefixKeepsTrees }
{}

/// In an accepted job the tree of an entry is made of the trees of the entries that it names.
pub fn trees_unfold()
    ensures { TreesUnfold }
{}

/// The question of binding asks, where those before it were answered with yes, exactly whether the job's term is closed.
pub fn bound_is_closed()
    ensures { BoundClosed }
{}

/// The term that an accepted job stands for is closed.
pub fn accepted_is_closed()
    ensures { AcceptedClosed }
{}

/// Every role code in the types and terms of an accepted job is a role.
pub fn accepted_is_coded()
    ensures { AcceptedCoded }
{}
