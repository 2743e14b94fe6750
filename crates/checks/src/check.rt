//! The two checks.
ghost use Rattle.std.specs.Prelude.{◌≡◌, ◌+◌};
ghost use Rattle.calculus.specs.Subtyping.{sufficient, necessary};
ghost use Rattle.checks.specs.Again.{AnswersAgain, AnswersByJob};
ghost use Rattle.checks.specs.Checking.{bound_in, check_of, cleared};
ghost use Rattle.checks.specs.Sense.{job_term, plain, Says};
ghost use Rattle.checks.specs.Systems.{meant};
ghost use Rattle.walks.specs.Sense.{Within};

use crate::clearance::{Clearance, clear};
use crate::fault::CheckFault;
use crate::system::System;
use crate::walk::walk;
use roles::scheme::Scheme;
use tables::entry::{Counts, Entry};
use tables::form::form;
use tables::operand::COMPUTATION;

// The role of a computation, else bottom.
fn bound<S: Scheme>(scheme: &S, found: Entry) -> u64
    ensures { result ≡ bound_in (S.meaning scheme.now) found }
{
    if found.tag == COMPUTATION {
        found.third
    } else {
        scheme.bottom()
    }
}

// Asks the questions of form, then walks; answers the bound of the job's type.
fn check<S: Scheme>(
    scheme: &S,
    system: System,
    counts: Counts,
    types: &mut [Entry],
    terms: &[Entry],
) -> Result<u64, CheckFault>
    ensures answer { result ≡ (check_of (S.meaning scheme.now) (meant system) counts.types counts.terms types.old terms.now).answer }
    ensures table { types.new ≡ (check_of (S.meaning scheme.now) (meant system) counts.types counts.terms types.old terms.now).table }
{
    form(scheme, counts, types, terms)?;
    let n = counts.terms as usize;
    let found = walk(scheme, system, counts.types, types, &terms[0..n])?;
    Ok(bound(scheme, types[found as usize]))
}

/// The sufficient check of a job of so many types and terms in two lent tables. An accepted job is cleared at its bound.
/// Types are appended from place `counts.types` up; a refusal leaves those that were appended.
pub fn check_sufficient<S: Scheme>(
    scheme: &S,
    counts: Counts,
    types: &mut [Entry],
    terms: &[Entry],
) -> Result<Clearance, CheckFault>
    ensures answer { result ≡ cleared (check_of (S.meaning scheme.now) sufficient counts.types counts.terms types.old terms.now).answer }
    ensures table { types.new ≡ (check_of (S.meaning scheme.now) sufficient counts.types counts.terms types.old terms.now).table }
    ensures sense { Says (S.meaning scheme.now) sufficient (job_term counts.types counts.terms types.old terms.now) (plain result) }
    ensures within { Within counts.types (counts.types + counts.terms) types.old types.new }
{
    clear(check(scheme, System::Sufficient, counts, types, terms))
}

/// The necessary check of a job of so many types and terms in two lent tables; an accepted job has the bound that it answers.
/// Types are appended from place `counts.types` up; a refusal leaves those that were appended.
pub fn check_necessary<S: Scheme>(
    scheme: &S,
    counts: Counts,
    types: &mut [Entry],
    terms: &[Entry],
) -> Result<u64, CheckFault>
    ensures answer { result ≡ (check_of (S.meaning scheme.now) necessary counts.types counts.terms types.old terms.now).answer }
    ensures table { types.new ≡ (check_of (S.meaning scheme.now) necessary counts.types counts.terms types.old terms.now).table }
    ensures sense { Says (S.meaning scheme.now) necessary (job_term counts.types counts.terms types.old terms.now) result }
    ensures within { Within counts.types (counts.types + counts.terms) types.old types.new }
{
    check(scheme, System::Necessary, counts, types, terms)
}

/// A check answers by the job alone, whatever stands in the table of types from place `counts.types` up.
#[tactic(auto, using(crate::proofs::Repeating::answers_by_job_lem))]
pub fn answers_by_job()
    ensures { AnswersByJob }
{}

/// A check after a check, of either system, answers what it would have answered before.
#[tactic(auto, using(crate::proofs::Repeating::answers_again_lem))]
pub fn answers_again()
    ensures { AnswersAgain }
{}
