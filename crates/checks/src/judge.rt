//! What is found of a term once the types of its operands are known.
ghost use Rattle.std.specs.Prelude.{◌≡◌, ◌^◌, ◌<◌, true, is_some};
ghost use Rattle.calculus.specs.Typing.{permits};
ghost use Rattle.walks.specs.Rules as rule;
ghost use Rattle.walks.specs.Rules.{base_type, claim_of, computation_type, function_type, guarded_type};
ghost use Rattle.checks.specs.Judge.{judge_of, Ready};
ghost use Rattle.checks.specs.Systems.{meant};

use crate::system::System;
use crate::table::Types;
use roles::scheme::Scheme;
use tables::entry::{Entry, entry_of};
use tables::operand::{
    ABSTRACTION, APPLICATION, BASE, CHECK, COMPUTATION, FIX, FUNCTION, GUARD, GUARDED, LET, RAISE,
    UNIT, VALUE, VARIABLE, ask,
};
use walks::fault::TypingFault;
use walks::finding::Finding;

/// The type that an abstraction claims for its variable.
pub(crate) fn claim(system: System, e: Entry) -> u32
    requires { e.third < 2 ^ 32 }
    ensures { result ≡ claim_of (meant system) e }
{
    match system {
        System::Sufficient => e.second,
        System::Necessary => e.third as u32,
    }
}

// The entry of a base type.
fn base(kind: u32) -> Entry
    ensures { result ≡ base_type kind }
{
    entry_of(BASE, kind, 0, 0)
}

// The entry of a function type.
fn function(from: u32, to: u32) -> Entry
    ensures { result ≡ function_type from to }
{
    entry_of(FUNCTION, from, to, 0)
}

// The entry of a guarded type.
fn guarded(role: u64, inner: u32) -> Entry
    ensures { result ≡ guarded_type role inner }
{
    entry_of(GUARDED, inner, 0, role)
}

// The entry of a computation type.
fn computation(role: u64, inner: u32) -> Entry
    ensures { result ≡ computation_type role inner }
{
    entry_of(COMPUTATION, inner, 0, role)
}

// The rule of a check.
fn checked(place: u32, body: Entry) -> Result<Finding, TypingFault>
    ensures { result ≡ rule.checked_as place body }
{
    ask(body.tag == GUARDED, TypingFault::NoGuard { place })?;
    Ok(Finding::New(computation(body.third, body.first)))
}

impl<S: Scheme> Types<'_, S> {
    // The rule of an application of an `f` to an `x`.
    fn applied(&self, place: u32, f: u32, x: u32) -> Result<Finding, TypingFault>
        requires function { f < self.now.used }
        requires argument { x < self.now.used }
        ensures { result ≡ rule.applied (S.meaning self.now.scheme.now) (meant self.now.system) place self.now.entries.now f x }
    {
        let function = self.entries[f as usize];
        ask(function.tag == FUNCTION, TypingFault::NoFunction { place })?;
        let fits = self.below(x, function.first);
        ask(fits, TypingFault::Argument { place })?;
        Ok(Finding::Known(function.second))
    }

    // The rule of a fix of an `f`.
    fn fixed(&self, place: u32, f: u32) -> Result<Finding, TypingFault>
        requires { f < self.now.used }
        ensures { result ≡ rule.fixed (S.meaning self.now.scheme.now) (meant self.now.system) place self.now.entries.now f }
    {
        let function = self.entries[f as usize];
        ask(function.tag == FUNCTION, TypingFault::NoFunction { place })?;
        let fits = self.below(function.second, function.first);
        ask(fits, TypingFault::Result { place })?;
        Ok(Finding::Known(function.second))
    }

    // The rule of a let whose first operand is a computation.
    fn joined(&self, place: u32, first: Entry, second: Entry) -> Result<Finding, TypingFault>
        requires { second.tag ≡ 4 → is_some ((S.meaning self.now.scheme.now).join first.third second.third) ≡ true }
        ensures { result ≡ rule.joined_as (S.meaning self.now.scheme.now) place first second }
    {
        ask(
            second.tag == COMPUTATION,
            TypingFault::NoComputation { place },
        )?;
        let role = self.scheme.join(first.third, second.third).unwrap();
        Ok(Finding::New(computation(role, second.first)))
    }

    // The rule of a raise by a role.
    fn raised(&self, place: u32, by: u64, body: Entry) -> Result<Finding, TypingFault>
        requires { body.tag ≡ 4 → is_some ((S.meaning self.now.scheme.now).remainder body.third by) ≡ true }
        ensures { result ≡ rule.raised_as (S.meaning self.now.scheme.now) place by body }
    {
        ask(
            body.tag == COMPUTATION,
            TypingFault::NoComputation { place },
        )?;
        let role = self.scheme.remainder(body.third, by).unwrap();
        Ok(Finding::New(computation(role, body.first)))
    }

    // For sufficiency a restriction has to dominate the role of its body.
    fn permits(&self, to: u64, role: u64) -> bool
        ensures { result ≡ permits (S.meaning self.now.scheme.now) (meant self.now.system) to role }
    {
        match self.system {
            System::Sufficient => self.scheme.dominates(to, role),
            System::Necessary => true,
        }
    }

    // The rule of a restriction to a role.
    fn restricted(&self, place: u32, to: u64, body: Entry) -> Result<Finding, TypingFault>
        ensures { result ≡ rule.restricted_as (S.meaning self.now.scheme.now) (meant self.now.system) place to body }
    {
        ask(
            body.tag == COMPUTATION,
            TypingFault::NoComputation { place },
        )?;
        let permitted = self.permits(to, body.third);
        ask(permitted, TypingFault::Restriction { place })?;
        Ok(Finding::New(computation(body.third, body.first)))
    }

    /// What is found of a term by the types of its operands, `f` and then `x`, and of its binder.
    #[tactic(auto, unfolding(crate::specs::Judge::judge_of))]
    pub(crate) fn judge(
        &self,
        place: u32,
        e: Entry,
        f: u32,
        x: u32,
        bound: u32,
    ) -> Result<Finding, TypingFault>
        requires { Ready (S.meaning self.now.scheme.now) self.now.entries.now self.now.used e f x }
        ensures { result ≡ judge_of (S.meaning self.now.scheme.now) (meant self.now.system) place self.now.entries.now e f x bound }
    {
        match e.tag {
            VALUE => Ok(Finding::New(base(e.first))),
            VARIABLE => Ok(Finding::Known(bound)),
            ABSTRACTION => Ok(Finding::New(function(claim(self.system, e), x))),
            APPLICATION => self.applied(place, f, x),
            FIX => self.fixed(place, x),
            GUARD => Ok(Finding::New(guarded(e.third, x))),
            CHECK => checked(place, self.entries[x as usize]),
            UNIT => Ok(Finding::New(computation(self.scheme.bottom(), x))),
            LET => self.joined(place, self.entries[f as usize], self.entries[x as usize]),
            RAISE => self.raised(place, e.third, self.entries[x as usize]),
            _ => self.restricted(place, e.third, self.entries[x as usize]),
        }
    }
}
