//! The theorems about turns and advances.
ghost use Rattle.machine.specs.Theorems.{AdvancesJoin, AdvancesSpend, RefusalsTold, TreesStay, TreesUnfold, TurnsAgree, TurnsClose, TurnsGrow};

/// Entries that are appended leave the trees of those before them as they were.
pub fn trees_stay()
    ensures { TreesStay }
{}

/// The tree of an entry is made of the trees of the entries that it names.
pub fn trees_unfold()
    ensures { TreesUnfold }
{}

/// A turn is exactly what the calculus says of the current term.
pub fn turns_agree()
    ensures { TurnsAgree }
{}

/// A turn from a closed term leaves a closed one.
pub fn turns_close()
    ensures { TurnsClose }
{}

/// A role that dominates another makes the same steps.
pub fn turns_grow()
    ensures { TurnsGrow }
{}

/// One advance after another is an advance by both budgets.
pub fn advances_join()
    ensures { AdvancesJoin }
{}

/// An advance spends its budget, or stops where no further step fits.
pub fn advances_spend()
    ensures { AdvancesSpend }
{}

/// A role fault is told with the check, the guard's role and the context role that it is at.
pub fn refusals_told()
    ensures { RefusalsTold }
{}
