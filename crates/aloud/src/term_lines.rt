//! Terms in lines.
ghost use Rattle.std.specs.Prelude.{◌≡◌, ◌≤◌, length};

use crate::type_words::{TypeAt, show_base};
use std::fmt;
use tables::entry::Entry;
use tables::operand::{
    ABSTRACTION, APPLICATION, CHECK, FIX, GUARD, LET, RAISE, UNIT, VALUE, VARIABLE, named_terms,
};

// A term by itself: its form, its role or its claims.
#[derive(Clone, Copy)]
struct Form<'a> {
    types: &'a [Entry],
    entry: Entry,
}

impl Form<'_> {
    // A base value: its kind, and its payload unless it is Unit's.
    fn show_value<W: fmt::Write>(&self, f: &mut fmt::Formatter<W>) -> fmt::Result {
        show_base(self.entry.first, f)?;
        write!(f, " value")?;
        if self.entry.first == 0 {
            return Ok(());
        }
        let payload = self.entry.third;
        write!(f, " {payload}")
    }

    // An abstraction with its claims as types.
    fn show_claims<W: fmt::Write>(&self, f: &mut fmt::Formatter<W>) -> fmt::Result {
        let types = self.types;
        let sufficient = TypeAt {
            types,
            place: self.entry.second as usize,
        };
        let necessary = TypeAt {
            types,
            place: self.entry.third as usize,
        };
        write!(
            f,
            "abstraction, sufficient claim {sufficient}, necessary claim {necessary}"
        )
    }
}

impl fmt::Display for Form<'_> {
    fn fmt<W: fmt::Write>(&self, f: &mut fmt::Formatter<W>) -> fmt::Result {
        let number = self.entry.first;
        let role = self.entry.third;
        match self.entry.tag {
            VALUE => self.show_value(f),
            VARIABLE => write!(f, "variable, passes over {number} binders"),
            ABSTRACTION => self.show_claims(f),
            APPLICATION => write!(f, "application"),
            FIX => write!(f, "fix"),
            GUARD => write!(f, "guard, role {role}"),
            CHECK => write!(f, "check"),
            UNIT => write!(f, "unit"),
            LET => write!(f, "let"),
            RAISE => write!(f, "raise, role {role}"),
            _ => write!(f, "restrict, role {role}"),
        }
    }
}

/// The line of term `at` of a job of `t` types, some levels in, and below it the lines of the terms that it names.
#[derive(Clone, Copy)]
pub(crate) struct TermAt<'a> {
    pub(crate) types: &'a [Entry],
    pub(crate) terms: &'a [Entry],
    pub(crate) t: u32,
    pub(crate) at: u32,
    pub(crate) level: u32,
}

impl<'a> TermAt<'a> {
    // Two spaces for each level, and the place.
    fn begin<W: fmt::Write>(self, f: &mut fmt::Formatter<W>) -> fmt::Result {
        for _ in 0..self.level {
            write!(f, "  ")?;
        }
        let place = self.t.saturating_add(self.at);
        write!(f, "place {place}: ")
    }

    // A lower term, one level further in.
    fn lower(self, at: u32) -> TermAt<'a>
        requires { self.at ≤ length self.terms.now }
        ensures { length result.terms.now ≡ self.entry.at }
    {
        TermAt {
            types: self.types,
            terms: &self.terms[..self.at as usize],
            t: self.t,
            at,
            level: self.level.saturating_add(1),
        }
    }

    // The line of the term. Not inlined, since what it needs of the stack would then be taken at each level of a job.
    #[inline(never)]
    fn show_line<W: fmt::Write>(self, entry: Entry, f: &mut fmt::Formatter<W>) -> fmt::Result {
        let form = Form {
            types: self.types,
            entry,
        };
        self.begin(f)?;
        writeln!(f, "{form}")
    }

    // The term with those that it names. A method, since a `fmt` may not lead back to itself through `write!`.
    fn show<W: fmt::Write>(self, f: &mut fmt::Formatter<W>) -> fmt::Result {
        let Some(&entry) = self.terms.get(self.at as usize) else {
            return Ok(());
        };
        self.show_line(entry, f)?;
        let names = named_terms(entry.tag);
        if names > 0 {
            self.lower(entry.first).show(f)?;
        }
        if names > 1 {
            self.lower(entry.second).show(f)?;
        }
        Ok(())
    }
}

impl fmt::Display for TermAt<'_> {
    fn fmt<W: fmt::Write>(&self, f: &mut fmt::Formatter<W>) -> fmt::Result {
        self.show(f)
    }
}
