//! The kinds of base values by name.
use std::fmt;

/// A kind of base value.
#[derive(Clone, Copy, PartialEq, Eq, Debug)]
pub(crate) enum Base {
    Unit,
    Number,
    Text,
}

/// A number that is that of no kind.
#[derive(Clone, Copy, PartialEq, Eq, Debug)]
pub(crate) struct NoKind;

impl TryFrom<u32> for Base {
    type Error = NoKind;

    fn try_from(number: u32) -> Result<Base, NoKind> {
        match number {
            0 => Ok(Base::Unit),
            1 => Ok(Base::Number),
            2 => Ok(Base::Text),
            _ => Err(NoKind),
        }
    }
}

impl fmt::Display for Base {
    fn fmt<W: fmt::Write>(&self, f: &mut fmt::Formatter<W>) -> fmt::Result {
        match self {
            Base::Unit => write!(f, "Unit"),
            Base::Number => write!(f, "Number"),
            Base::Text => write!(f, "Text"),
        }
    }
}
