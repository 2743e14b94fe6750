//! What a question of form answered with no tells.
ghost use Rattle.std.specs.Prelude.{◌≡◌};
ghost use Rattle.tables.specs.Faults.{number_of, place_of};
ghost use Rattle.tables.specs.declared.fault.FormFault.TheVariants.{Scheme};

use roles::fault::Fault;
use roles::scheme::SchemeFault;
use std::fmt;

/// The first question of form that was answered with no. A place counts from 0 through the types, then the terms.
#[derive(Clone, Copy, PartialEq, Eq, Debug)]
pub enum FormFault {
    /// The scheme is refused.
    Scheme(SchemeFault),
    /// More than 512 types, no term, or more than 1,024 terms.
    Counts { types: u32, terms: u32 },
    /// Too few places in a table, or more than 16,384.
    Room { types: usize, terms: usize },
    /// The tag is none of its table's.
    Tag { place: u32, tag: u8 },
    /// An operand is not as its tag asks.
    Operands { place: u32 },
    /// The role code is no role.
    Role { place: u32, code: u64 },
    /// The type, written out, has more than 4,096 parts.
    Size { place: u32, size: u32 },
    /// The term is not the last and is not named exactly once.
    Named { place: u32, times: u16 },
    /// The variable has no binder.
    Unbound { place: u32 },
}

impl Fault for FormFault {
    ghost number_of = { number_of };

    ghost place_of = { place_of };

    fn number(&self) -> u8 {
        match self {
            FormFault::Scheme(fault) => fault.number(),
            FormFault::Counts { .. } => 4,
            FormFault::Room { .. } => 6,
            FormFault::Tag { .. } => 7,
            FormFault::Operands { .. } => 8,
            FormFault::Role { .. } => 9,
            FormFault::Size { .. } => 10,
            FormFault::Named { .. } => 11,
            FormFault::Unbound { .. } => 12,
        }
    }

    fn place(&self) -> u32 {
        match *self {
            FormFault::Scheme(fault) => fault.place(),
            FormFault::Counts { .. } => 0,
            FormFault::Room { .. } => 0,
            FormFault::Tag { place, .. } => place,
            FormFault::Operands { place } => place,
            FormFault::Role { place, .. } => place,
            FormFault::Size { place, .. } => place,
            FormFault::Named { place, .. } => place,
            FormFault::Unbound { place } => place,
        }
    }
}

impl fmt::Display for FormFault {
    fn fmt<W: fmt::Write>(&self, f: &mut fmt::Formatter<W>) -> fmt::Result {
        match self {
            FormFault::Scheme(fault) => write!(f, "{fault}"),
            FormFault::Counts { .. } => write!(
                f,
                "there are more than 512 types, no term or more than 1024 terms"
            ),
            FormFault::Room { .. } => write!(f, "the tables have too few places or too many"),
            FormFault::Tag { .. } => write!(f, "the tag is none of its table's"),
            FormFault::Operands { .. } => write!(f, "the operands are not as the tag asks"),
            FormFault::Role { .. } => write!(f, "the role code is no role of the scheme"),
            FormFault::Size { .. } => write!(f, "the type, written out, has more than 4096 parts"),
            FormFault::Named { .. } => write!(f, "the term is not named exactly once"),
            FormFault::Unbound { .. } => write!(f, "the variable has no binder"),
        }
    }
}

impl From<SchemeFault> for FormFault {
    ghost from_gives = { λ e r. r ≡ Scheme e };

    fn from(e: SchemeFault) -> FormFault {
        FormFault::Scheme(e)
    }
}
