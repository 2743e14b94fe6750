//! All questions of form, in their order.
ghost use Rattle.std.specs.Prelude.{◌≡◌, ◌≤◌, length};
ghost use Rattle.tables.specs.Asking.{of_each};
ghost use Rattle.tables.specs.Form as spec;
ghost use Rattle.tables.specs.Form.{ask_term};

use crate::entry::{Counts, Entry};
use crate::fault::FormFault;
use crate::operand::{ask, ask_term};
use crate::size::ask_types;
use crate::terms::Terms;
use roles::refusal::ask_sound;
use roles::scheme::Scheme;

/// Is the scheme sound?
pub fn sound<S: Scheme>(scheme: &S) -> Result<(), FormFault>
    ensures { result ≡ spec.sound_asked (S.meaning scheme.now) }
{
    ask_sound(scheme)?;
    Ok(())
}

/// Are there at most 512 types, and 1 to 1,024 terms?
pub fn few(counts: Counts) -> Result<(), FormFault>
    ensures { result ≡ spec.counts_asked counts.types counts.terms }
{
    let Counts { types, terms } = counts;
    ask(
        types <= 512 && terms >= 1 && terms <= 1024,
        FormFault::Counts { types, terms },
    )
}

/// Have tables of so many places room for the types, for one type more per term, and for the terms, and at most 16,384 places each?
pub fn room(counts: Counts, types: usize, terms: usize) -> Result<(), FormFault>
    ensures { result ≡ spec.room_asked counts.types counts.terms types terms }
{
    let n = counts.terms as usize;
    let t = counts.types as usize;
    let fits = t + n <= types && n <= terms && types <= 16384 && terms <= 16384;
    ask(fits, FormFault::Room { types, terms })
}

// Stays: how long a slice is stands in the clauses of the few functions that ask. A type for each of the two lengths would be longer.
// The questions of tag, operands and role to each term, lowest first, in a job of `t` types.
fn ask_terms<S: Scheme>(scheme: &S, t: u32, terms: &[Entry]) -> Result<(), FormFault>
    requires types_few { t ≤ 512 }
    requires terms_few { length terms.now ≤ 1024 }
    ensures { result ≡ of_each (ask_term (S.meaning scheme.now).role t terms.now) (length terms.now) 0 }
{
    for (i, e) in terms.iter().enumerate() {
        let i = i as u32;
        ask_term(scheme, *e, i, t, t + i)?;
    }
    Ok(())
}

// The questions to the entries of a job that is all of two tables.
fn ask_entries<S: Scheme>(scheme: &S, types: &[Entry], terms: &[Entry]) -> Result<(), FormFault>
    requires types_few { length types.now ≤ 512 }
    requires terms_some { 1 ≤ length terms.now }
    requires terms_few { length terms.now ≤ 1024 }
    ensures { result ≡ spec.entries_asked (S.meaning scheme.now).role types.now terms.now }
{
    let t = types.len() as u32;
    ask_types(scheme, types)?;
    ask_terms(scheme, t, terms)?;
    let terms = Terms { t, entries: terms };
    terms.ask_uses()?;
    terms.ask_bound()
}

// Stays: the counts and both tables are parameters by themselves, here and in all calls on a job. The tables are the caller's, and a check writes to the types.
/// Has a job of so many types and terms, in two lent tables, the form of one? The first question answered with no is told.
pub fn form<S: Scheme>(
    scheme: &S,
    counts: Counts,
    types: &[Entry],
    terms: &[Entry],
) -> Result<(), FormFault>
    ensures { result ≡ spec.form (S.meaning scheme.now) counts.types counts.terms types.now terms.now }
{
    sound(scheme)?;
    few(counts)?;
    room(counts, types.len(), terms.len())?;
    ask_entries(
        scheme,
        &types[0..counts.types as usize],
        &terms[0..counts.terms as usize],
    )
}
