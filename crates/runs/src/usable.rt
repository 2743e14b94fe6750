//! The question whether a run can go on in a table.
ghost use Rattle.std.specs.Prelude.{◌≡◌, ◌^◌, ◌<◌, ◌≤◌, true, length};
ghost use Rattle.runs.specs.Reach.{Known};
ghost use Rattle.runs.specs.Table.{Live};
ghost use Rattle.runs.specs.Usable as spec;
ghost use Rattle.runs.specs.Usable.{all_pass};

use crate::reach::reach_step;
use roles::scheme::Scheme;
use tables::entry::Entry;
use tables::operand::{ABSTRACTION, is_term, role_is, term_fits};

// Are the operands of term `i` as its tag asks, claims not looked at?
fn plain_fits(e: Entry, i: u32) -> bool
    ensures { result ≡ spec.plain_operands e i }
{
    if e.tag == ABSTRACTION {
        e.first < i
    } else {
        term_fits(e, i, 0)
    }
}

// Has term `i` a tag of a term, operands as it asks, and a role for a role code?
fn passes<S: Scheme>(scheme: &S, e: Entry, i: u32) -> bool
    ensures { result ≡ spec.passes (S.meaning scheme.now).role e i }
{
    is_term(e.tag) && plain_fits(e, i) && role_is(scheme, e)
}

// Do the used entries pass? Their reaches are filled in on the way.
fn scan<S: Scheme>(scheme: &S, used: &[Entry], reach: &mut [u16]) -> bool
    requires { (length used.now ≤ length reach.old) × (length used.now < 2 ^ 32) }
    ensures passed { result ≡ all_pass (S.meaning scheme.now).role used.now (length used.now) 0 }
    ensures known { result ≡ true → Known used.now reach.new }
{
    for (i, e) in used.iter().enumerate() {
        if !passes(scheme, *e, i as u32) {
            return false;
        }
        reach[i] = reach_step(*e, i, reach);
    }
    true
}

/// Can a run go on in the table? Then the reaches of the used entries are known.
pub(crate) fn usable<S: Scheme>(
    scheme: &S,
    terms: &[Entry],
    used: u32,
    current: u32,
    reach: &mut [u16],
) -> bool
    requires { length reach.old ≡ 16384 }
    ensures is { result ≡ spec.usable (S.meaning scheme.now).role terms.now used current }
    ensures live { result ≡ true → Live terms.now reach.new used current }
{
    if terms.len() > 16384
        || used as usize > terms.len()
        || !scan(scheme, &terms[..used as usize], reach)
    {
        return false;
    }
    current < used && reach[current as usize] == 0
}
