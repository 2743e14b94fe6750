//! The calculus of role guards: its types, its terms, two type systems, its steps, and the theorems about them.
//! The definitions are in specs/, and docs/calculus.md reads them aloud. Each function stands for one theorem, which specs/ states for every lawful scheme.
#![tactic(auto)]

ghost use Rattle.calculus.specs.Theorems.{SubtypingReflexive, SubtypingTransitive, SubtypingAntisymmetric, SubtypingDecided, InferenceSound, InferenceDecides, InferenceLeast, StepsKeepType, SufficientSafety, NecessarySafety, OutcomeUnique, NextDecides, StepsKeepClosed, TypedClosed, StepsCounted, DominatingRoleSteps, RaisingNeedsRemainder};
ghost use Rattle.calculus.specs.Everywhere.{InferenceDecidesEverywhere, InferenceLeastEverywhere};
ghost use Rattle.calculus.specs.Subtyping.{System, sufficient};

/// Every type whose codes are roles is below itself.
pub fn subtyping_reflexive()
    ensures { SubtypingReflexive }
{}

/// What is below a type is below all that the type is below.
pub fn subtyping_transitive()
    ensures { SubtypingTransitive }
{}

/// Types that are below each other are the same, so a least type is the only one.
pub fn subtyping_antisymmetric()
    ensures { SubtypingAntisymmetric }
{}

/// The subtype test passes exactly where the rules of subtyping do.
pub fn subtyping_decided()
    ensures { SubtypingDecided }
{}

/// What inference finds is a type by the rules.
pub fn inference_sound()
    ensures { InferenceSound }
{}

/// Inference finds a type exactly if the rules give one.
pub fn inference_decides()
    ensures { InferenceDecides }
{}

/// What inference finds is below every type that the rules give.
pub fn inference_least()
    ensures { InferenceLeast }
{}

/// Inference finds a type exactly if the rules give one, in a scheme without roles too.
pub fn inference_decides_everywhere()
    ensures { InferenceDecidesEverywhere }
{}

/// What inference finds is below every other type that the rules give, in a scheme without roles too.
pub fn inference_least_everywhere()
    ensures { InferenceLeastEverywhere }
{}

/// Steps under a role keep the sufficient type.
pub fn steps_keep_type()
    ensures { StepsKeepType sufficient }
{}

/// Under a role that dominates the sufficient bound no term reached is a role fault or a shape fault.
pub fn sufficient_safety()
    ensures { SufficientSafety }
{}

/// Under a role that does not dominate the necessary bound, no term reached is a value or a shape fault.
pub fn necessary_safety()
    ensures { NecessarySafety }
{}

/// Every term is exactly one of a value, a term that steps to one other, a role fault and a shape fault.
pub fn outcome_unique()
    ensures { OutcomeUnique }
{}

/// The function `next` on trees tells which of the four a term is, and what it steps to.
pub fn next_decides()
    ensures { NextDecides }
{}

/// Steps keep a term closed, and a step of a closed term puts in a closed term only.
pub fn steps_keep_closed()
    ensures { StepsKeepClosed }
{}

/// A term with a type in the empty environment is closed.
pub fn typed_closed()
    ensures { TypedClosed }
{}

/// A term that is reached is reached in some number of steps, and by that number of steps no other term is.
pub fn steps_counted()
    ensures { StepsCounted }
{}

/// A role that dominates another makes every step that the other makes, to the same term.
pub fn dominating_role_steps()
    ensures { DominatingRoleSteps }
{}

/// A role suffices for a raised computation exactly when its join with the raise's role dominates the bound inside.
pub fn raising_needs_remainder()
    ensures { RaisingNeedsRemainder }
{}
