//! What a question of typing answered with no tells.
ghost use Rattle.std.specs.Prelude.{◌≡◌};
ghost use Rattle.walks.specs.Faults.{number_of, place_of};

use roles::fault::Fault;

/// The first question of typing that was answered with no. The place is that of the term that asks, counted through the types, then the terms.
#[derive(Clone, Copy, PartialEq, Eq, Debug)]
pub enum TypingFault {
    /// The first operand of an application or a fix is no function.
    NoFunction { place: u32 },
    /// The argument is not below what the function takes.
    Argument { place: u32 },
    /// The result of the function under a fix is not below what it takes.
    Result { place: u32 },
    /// The operand of a check is not guarded.
    NoGuard { place: u32 },
    /// The operand of a let, a raise or a restriction is no computation.
    NoComputation { place: u32 },
    /// The restriction does not dominate the role of its body.
    Restriction { place: u32 },
}

impl Fault for TypingFault {
    ghost number_of = { number_of };

    ghost place_of = { place_of };

    fn number(&self) -> u8 {
        match self {
            TypingFault::NoFunction { .. } => 20,
            TypingFault::Argument { .. } => 21,
            TypingFault::Result { .. } => 22,
            TypingFault::NoGuard { .. } => 23,
            TypingFault::NoComputation { .. } => 24,
            TypingFault::Restriction { .. } => 25,
        }
    }

    fn place(&self) -> u32 {
        match *self {
            TypingFault::NoFunction { place }
            | TypingFault::Argument { place }
            | TypingFault::Result { place }
            | TypingFault::NoGuard { place }
            | TypingFault::NoComputation { place }
            | TypingFault::Restriction { place } => place,
        }
    }
}
