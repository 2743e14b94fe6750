//! Types in words.
ghost use Rattle.std.specs.Prelude.{◌≡◌, ◌≤◌, length};

use crate::base::Base;
use std::fmt;
use tables::entry::Entry;
use tables::operand::{BASE, FUNCTION, GUARDED};

/// The type at a place of a table, written out.
#[derive(Clone, Copy)]
pub(crate) struct TypeAt<'a> {
    pub(crate) types: &'a [Entry],
    pub(crate) place: usize,
}

impl<'a> TypeAt<'a> {
    // A lower type.
    fn lower(self, place: u32) -> TypeAt<'a>
        requires { self.place ≤ length self.types.now }
        ensures { length result.types.now ≡ self.entry.place }
    {
        TypeAt {
            types: &self.types[..self.place],
            place: place as usize,
        }
    }

    // The type with those that it names. A method, since a `fmt` may not lead back to itself through `write!`.
    fn show<W: fmt::Write>(self, f: &mut fmt::Formatter<W>) -> fmt::Result {
        let Some(&e) = self.types.get(self.place) else {
            return write!(f, "unknown");
        };
        match e.tag {
            BASE => return show_base(e.first, f),
            FUNCTION => {
                write!(f, "(function from ")?;
                self.lower(e.first).show(f)?;
                write!(f, " to ")?;
                self.lower(e.second).show(f)?;
                return write!(f, ")");
            }
            GUARDED => write!(f, "(guarded ")?,
            _ => write!(f, "(computation of ")?,
        }
        self.lower(e.first).show(f)?;
        let role = e.third;
        write!(f, ", role {role})")
    }
}

impl fmt::Display for TypeAt<'_> {
    fn fmt<W: fmt::Write>(&self, f: &mut fmt::Formatter<W>) -> fmt::Result {
        self.show(f)
    }
}

/// The kind of a number.
pub(crate) fn show_base<W: fmt::Write>(number: u32, f: &mut fmt::Formatter<W>) -> fmt::Result {
    match Base::try_from(number) {
        Ok(base) => write!(f, "{base}"),
        Err(_) => write!(f, "unknown"),
    }
}
