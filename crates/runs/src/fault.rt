//! What a refused start and a refused advance tell.
ghost use Rattle.std.specs.Prelude.{◌≡◌};
ghost use Rattle.runs.specs.Refusals.{number_of, place_of, start_number, start_place};
ghost use Rattle.runs.specs.declared.fault.RunFault.TheVariants.{Scheme};
ghost use Rattle.runs.specs.declared.fault.StartFault.TheVariants.{Form};

use machine::condition::Condition;
use roles::fault::Fault;
use roles::scheme::SchemeFault;
use tables::fault::FormFault;

/// Why no run was started.
#[derive(Clone, Copy, PartialEq, Eq, Debug)]
pub enum StartFault {
    /// The job has not the form of one.
    Form(FormFault),
    /// The code is no role.
    Role { code: u64 },
}

/// Why a run was not advanced.
#[derive(Clone, Copy, PartialEq, Eq, Debug)]
pub enum RunFault {
    /// The scheme is refused.
    Scheme(SchemeFault),
    /// The run's role is no role of this scheme.
    Role { code: u64 },
    /// The table is too long or too short, a used entry does not pass, or the current term is not closed.
    Unusable,
    /// The run has ended.
    Ended { condition: Condition },
    /// The steps with the budget reach 2^32.
    Budget { steps: u32, budget: u64 },
}

impl Fault for StartFault {
    ghost number_of = { start_number };

    ghost place_of = { start_place };

    fn number(&self) -> u8 {
        match self {
            StartFault::Form(fault) => fault.number(),
            StartFault::Role { .. } => 30,
        }
    }

    fn place(&self) -> u32 {
        match self {
            StartFault::Form(fault) => fault.place(),
            StartFault::Role { .. } => 0,
        }
    }
}

impl Fault for RunFault {
    ghost number_of = { number_of };

    ghost place_of = { place_of };

    fn number(&self) -> u8 {
        match self {
            RunFault::Scheme(fault) => fault.number(),
            RunFault::Role { .. } => 30,
            RunFault::Unusable => 32,
            RunFault::Ended { .. } => 33,
            RunFault::Budget { .. } => 34,
        }
    }

    fn place(&self) -> u32 {
        match self {
            RunFault::Scheme(fault) => fault.place(),
            _ => 0,
        }
    }
}

impl From<SchemeFault> for RunFault {
    ghost from_gives = { λ e r. r ≡ Scheme e };

    fn from(e: SchemeFault) -> RunFault {
        RunFault::Scheme(e)
    }
}

impl From<FormFault> for StartFault {
    ghost from_gives = { λ e r. r ≡ Form e };

    fn from(e: FormFault) -> StartFault {
        StartFault::Form(e)
    }
}
