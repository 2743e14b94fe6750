//! The questions that one entry answers by itself: its tag, its operands, its role code.
ghost use Rattle.std.specs.Prelude.{◌≡◌};
ghost use Rattle.tables.specs.Asking.{asks};
ghost use Rattle.tables.specs.Entries.{binds, names, one_operand, operand_of, role_fits, role_tag, term_operands, term_tag, type_operands, type_tag, value_operands};
ghost use Rattle.tables.specs.Form.{entry_asked, term_asked, type_asked};

use crate::entry::Entry;
use crate::fault::FormFault;
use roles::scheme::Scheme;

// Stays: tags are numbers with names and not an enum. Any byte may stand in a lent table, and whether it is a tag is asked.
pub const BASE: u8 = 1;

pub const FUNCTION: u8 = 2;

pub const GUARDED: u8 = 3;

pub const COMPUTATION: u8 = 4;

pub const VALUE: u8 = 16;

pub const VARIABLE: u8 = 17;

pub const ABSTRACTION: u8 = 18;

pub const APPLICATION: u8 = 19;

pub const FIX: u8 = 20;

pub const GUARD: u8 = 21;

pub const CHECK: u8 = 22;

pub const UNIT: u8 = 23;

pub const LET: u8 = 24;

pub const RAISE: u8 = 25;

pub const RESTRICT: u8 = 26;

/// One question: a no tells the fault.
pub fn ask<E: Drop>(yes: bool, fault: E) -> Result<(), E>
    ensures { result ≡ asks yes fault }
{
    if yes { Ok(()) } else { Err(fault) }
}

/// Is it the tag of a type?
fn is_type(tag: u8) -> bool
    ensures { result ≡ type_tag tag }
{
    tag >= BASE && tag <= COMPUTATION
}

/// Is it the tag of a term?
pub fn is_term(tag: u8) -> bool
    ensures { result ≡ term_tag tag }
{
    tag >= VALUE && tag <= RESTRICT
}

/// Is the third operand of such an entry a role code?
pub fn has_role(tag: u8) -> bool
    ensures { result ≡ role_tag tag }
{
    tag == GUARDED || tag == COMPUTATION || tag == GUARD || tag == RAISE || tag == RESTRICT
}

/// How many terms such an entry names.
pub fn named_terms(tag: u8) -> u8
    ensures { result ≡ names tag }
{
    match tag {
        VALUE | VARIABLE => 0,
        APPLICATION | LET => 2,
        _ => 1,
    }
}

/// The term of a number that an entry names: the first has number 0, the second 1.
pub fn operand_of(e: Entry, number: u8) -> u32
    ensures { result ≡ operand_of e number }
{
    if number == 0 { e.first } else { e.second }
}

/// Does such an entry bind a variable in the term of that number that it names?
/// An abstraction binds in its first, let in its second.
pub fn binds(tag: u8, number: u8) -> bool
    ensures { result ≡ binds tag number }
{
    match number {
        0 => tag == ABSTRACTION,
        1 => tag == LET,
        _ => false,
    }
}

// Are the operands of type `i` as its tag asks?
fn type_fits(e: Entry, i: u32) -> bool
    ensures { result ≡ type_operands e i }
{
    match e.tag {
        BASE => e.first <= 2 && e.second == 0 && e.third == 0,
        FUNCTION => e.first < i && e.second < i && e.third == 0,
        _ => e.first < i && e.second == 0,
    }
}

// A base value: a kind, and a payload that is 0 for Unit.
fn value_fits(e: Entry) -> bool
    ensures { result ≡ value_operands e }
{
    e.first <= 2 && e.second == 0 && (e.first > 0 || e.third == 0)
}

// A term that names one lower term.
fn one_fits(e: Entry, i: u32) -> bool
    ensures { result ≡ one_operand e i }
{
    e.first < i && e.second == 0 && (has_role(e.tag) || e.third == 0)
}

/// Are the operands of term `i`, in a job of `t` types, as its tag asks?
pub fn term_fits(e: Entry, i: u32, t: u32) -> bool
    ensures { result ≡ term_operands e i t }
{
    match e.tag {
        VALUE => value_fits(e),
        VARIABLE => e.first < 1024 && e.second == 0 && e.third == 0,
        ABSTRACTION => e.first < i && e.second < t && e.third < t as u64,
        APPLICATION | LET => e.first < i && e.second < i && e.third == 0,
        _ => one_fits(e, i),
    }
}

/// If the entry has a role code, is it a role?
pub fn role_is<S: Scheme>(scheme: &S, e: Entry) -> bool
    ensures { result ≡ role_fits (S.meaning scheme.now).role e }
{
    !has_role(e.tag) || scheme.is_role(e.third)
}

// The questions of tag, operands and role to an entry, of which it is known whether the first two are answered with yes.
// Inlined, since a call for each entry makes the scan slower.
#[inline(always)]
fn ask_entry<S: Scheme>(
    scheme: &S,
    e: Entry,
    place: u32,
    tagged: bool,
    fits: bool,
) -> Result<(), FormFault>
    ensures { result ≡ entry_asked (S.meaning scheme.now).role e place tagged fits }
{
    ask(tagged, FormFault::Tag { place, tag: e.tag })?;
    ask(fits, FormFault::Operands { place })?;
    let code = e.third;
    ask(role_is(scheme, e), FormFault::Role { place, code })
}

/// The questions of tag, operands and role to type `i`.
pub(crate) fn ask_type<S: Scheme>(scheme: &S, e: Entry, i: u32) -> Result<(), FormFault>
    ensures { result ≡ type_asked (S.meaning scheme.now).role e i }
{
    ask_entry(scheme, e, i, is_type(e.tag), type_fits(e, i))
}

/// The questions of tag, operands and role to term `i`, which stands at `place`, in a job of `t` types.
pub(crate) fn ask_term<S: Scheme>(
    scheme: &S,
    e: Entry,
    i: u32,
    t: u32,
    place: u32,
) -> Result<(), FormFault>
    ensures { result ≡ term_asked (S.meaning scheme.now).role e i t place }
{
    ask_entry(scheme, e, place, is_term(e.tag), term_fits(e, i, t))
}
