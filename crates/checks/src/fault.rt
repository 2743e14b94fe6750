//! What a check refuses with.
ghost use Rattle.std.specs.Prelude.{◌≡◌};
ghost use Rattle.checks.specs.Faults.{number_of, place_of};
ghost use Rattle.checks.specs.declared.fault.CheckFault.TheVariants.{Form, Typing};

use roles::fault::Fault;
use tables::fault::FormFault;
use walks::fault::TypingFault;

/// The first question of a check that was answered with no.
#[derive(Clone, Copy, PartialEq, Eq, Debug)]
pub enum CheckFault {
    /// A question of form.
    Form(FormFault),
    /// A question of typing.
    Typing(TypingFault),
}

impl Fault for CheckFault {
    ghost number_of = { number_of };

    ghost place_of = { place_of };

    fn number(&self) -> u8 {
        match self {
            CheckFault::Form(fault) => fault.number(),
            CheckFault::Typing(fault) => fault.number(),
        }
    }

    fn place(&self) -> u32 {
        match self {
            CheckFault::Form(fault) => fault.place(),
            CheckFault::Typing(fault) => fault.place(),
        }
    }
}

impl From<FormFault> for CheckFault {
    ghost from_gives = { λ e r. r ≡ Form e };

    fn from(e: FormFault) -> CheckFault {
        CheckFault::Form(e)
    }
}

impl From<TypingFault> for CheckFault {
    ghost from_gives = { λ e r. r ≡ Typing e };

    fn from(e: TypingFault) -> CheckFault {
        CheckFault::Typing(e)
    }
}
