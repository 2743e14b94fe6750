//! An entry in words.
use std::fmt;
use tables::entry::Entry;
use tables::operand::{
    ABSTRACTION, APPLICATION, CHECK, FIX, GUARD, LET, RAISE, RESTRICT, UNIT, VALUE,
};

/// An entry, to be printed as its form with its operands.
#[derive(Clone, Copy)]
pub(crate) struct InWords(pub Entry);

impl fmt::Display for InWords {
    fn fmt<W: fmt::Write>(&self, f: &mut fmt::Formatter<W>) -> fmt::Result {
        let Entry {
            tag,
            first,
            second,
            third,
        } = self.0;
        match tag {
            VALUE => write!(f, "base value of kind {first}, payload {third}"),
            ABSTRACTION => write!(f, "abstraction over {first}"),
            APPLICATION => write!(f, "application of {first} to {second}"),
            FIX => write!(f, "fix of {first}"),
            GUARD => write!(f, "guard of role {third} over {first}"),
            CHECK => write!(f, "check of {first}"),
            UNIT => write!(f, "unit over {first}"),
            LET => write!(f, "let of {first} in {second}"),
            RAISE => write!(f, "raise by {third} of {first}"),
            RESTRICT => write!(f, "restrict by {third} of {first}"),
            _ => write!(f, "variable past {first} binders"),
        }
    }
}
