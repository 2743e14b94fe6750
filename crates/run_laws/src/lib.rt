//! Laws over the advances of a run, on what the contract of `advance` says that it leaves.
#![tactic(auto)]

ghost use Rattle.run_laws.specs.Laws.{AdvancesAdd, StaysUsable};

/// Two advances leave the same as one by both budgets.
pub fn advances_add()
    ensures { AdvancesAdd }
{}

/// After an accepted advance the run can go on in the terms that it left.
pub fn stays_usable()
    ensures { StaysUsable }
{}
