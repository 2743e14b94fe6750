//! What the next step is.
ghost use Rattle.std.specs.Prelude.{◌≡◌, ◌+◌, ◌^◌, ◌<◌, ◌≤◌, true, length, if◌then◌else◌, nat_eq, slice_index_or};
ghost use Rattle.machine.specs.Labelled.{closed, tree};
ghost use Rattle.machine.specs.Plans.{step};
ghost use Rattle.runs.specs.Find.{FoundFits, at_once, found_here, is_ready, met_of, path_of, role_within, value_tag};
ghost use Rattle.runs.specs.Reach.{no_entry};
ghost use Rattle.runs.specs.Table.{idle_of};

use crate::reach::Used;
use machine::condition::Condition;
use roles::scheme::Scheme;
use tables::entry::Entry;
use tables::operand::{
    ABSTRACTION, APPLICATION, CHECK, FIX, GUARD, LET, RAISE, RESTRICT, UNIT, VALUE, VARIABLE, ask,
};

/// What a step does where it happens: puts an entry for a body's variable, makes a unit, or shares.
#[derive(Clone, Copy)]
pub(crate) enum Act {
    Place { body: u32, with: u32 },
    Unit { of: u32 },
    Share { of: u32 },
}

/// The next step: an act, so many entries inward.
#[derive(Clone, Copy)]
pub(crate) struct Redex {
    pub act: Act,
    pub path: u32,
}

fn is_value(tag: u8) -> bool
    ensures { result ≡ value_tag tag }
{
    matches!(tag, VALUE | ABSTRACTION | GUARD | UNIT)
}

fn at_once(act: Act) -> Result<Redex, Condition>
    ensures { result ≡ at_once act }
{
    Ok(Redex { act, path: 0 })
}

// A body for its variable, if the form fits, else a shape fault.
fn placing(fits: bool, body: u32, with: u32, at: u32) -> Result<Redex, Condition>
    ensures { result ≡ (if fits then at_once (Act.Place body with) else Err (Condition.ShapeFault at)) }
{
    ask(fits, Condition::ShapeFault { entry: at })?;
    at_once(Act::Place { body, with })
}

// A check of the value `f`.
fn checking(ok: bool, context: u64, f: Entry, at: u32) -> Result<Redex, Condition>
    ensures { result ≡ (if nat_eq f.tag 21 then (if ok then at_once (Act.Unit f.first) else Err (Condition.RoleFault at f.third context)) else Err (Condition.ShapeFault at)) }
{
    if f.tag != GUARD {
        Err(Condition::ShapeFault { entry: at })
    } else if ok {
        at_once(Act::Unit { of: f.first })
    } else {
        Err(Condition::RoleFault {
            check: at,
            guard: f.third,
            context,
        })
    }
}

// What happens at entry `at`, whose first operand is the value `f`.
fn act_here(ok: bool, context: u64, e: Entry, f: Entry, at: u32) -> Result<Redex, Condition>
    ensures { result ≡ found_here ok context at e f }
{
    match e.tag {
        APPLICATION => placing(f.tag == ABSTRACTION, f.first, e.second, at),
        FIX => placing(f.tag == ABSTRACTION, f.first, at, at),
        CHECK => checking(ok, context, f, at),
        LET => placing(f.tag == UNIT, e.second, f.first, at),
        _ => at_once(Act::Share { of: e.first }),
    }
}

// The context role within the first operand of `e`.
fn inner_role<S: Scheme>(scheme: &S, context: u64, e: Entry) -> Option<u64>
    ensures { result ≡ role_within (S.meaning scheme.now) context e }
{
    match e.tag {
        RAISE => scheme.join(e.third, context),
        RESTRICT => scheme.meet(e.third, context),
        _ => Some(context),
    }
}

impl Used<'_> {
    /// The next step of entry `at` under a context role: inward through first operands until one is a value.
    /// Where there is none, the condition tells why: a value, or a fault.
    pub(crate) fn find<S: Scheme>(
        &self,
        scheme: &S,
        context: u64,
        at: u32,
    ) -> Result<Redex, Condition>
        requires { (at < length self.now.terms.now) × (closed 0 (tree self.now.terms.now at) ≡ true) }
        ensures met { step (S.meaning scheme.now) context (tree self.now.terms.now at) ≡ met_of self.now.terms.now at result }
        ensures rests { is_ready result ≡ true → value_tag (slice_index_or self.now.terms.now at no_entry).tag ≡ true }
        ensures short { path_of result ≤ at }
        ensures fits { FoundFits self.now.terms.now at result }
    {
        let e = self.terms[at as usize];
        if is_value(e.tag) {
            return Err(Condition::Finished);
        }
        if e.tag == VARIABLE {
            return Err(Condition::ShapeFault { entry: at });
        }
        let f = self.terms[e.first as usize];
        if is_value(f.tag) {
            return act_here(scheme.dominates(context, f.third), context, e, f, at);
        }
        let Some(inner) = inner_role(scheme, context, e) else {
            return Err(Condition::ShapeFault { entry: at });
        };
        let redex = self.find(scheme, inner, e.first)?;
        Ok(Redex {
            act: redex.act,
            path: redex.path + 1,
        })
    }
}

/// The condition where no budget is left.
pub(crate) fn idle_by(found: Result<Redex, Condition>) -> Condition
    ensures { result ≡ idle_of found }
{
    found.err().unwrap_or(Condition::Going)
}
