//! Worked readings of the calculus under a mask and a ladder, and errors that would be tempting, each shown to be one by a term.
#![tactic(auto)]

ghost use Rattle.calculus.specs.Subtyping.{necessary, sufficient};
ghost use Rattle.calculus.specs.Theorems.{StepsKeepType};
ghost use Rattle.readings.specs.Bounds.{Readings};
ghost use Rattle.readings.specs.Errors.{TemptingErrorsFail};

/// The worked readings, by computation.
pub fn readings_hold()
    ensures { Readings }
{}

/// The remainder by a complement, arguments compared forward, a let that hands over the unit: each is shown to be an error by a term.
pub fn tempting_errors_fail()
    ensures { TemptingErrorsFail }
{}

/// Steps do not keep the necessary type: a step may lower the bound.
pub fn necessary_type_falls()
    ensures { StepsKeepType necessary → ⊥ }
{}
