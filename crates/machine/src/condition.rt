//! How a run stands.
ghost use Rattle.std.specs.Prelude.{◌≡◌};
ghost use Rattle.machine.specs.Conditions.{ends, number_of, values_of};

use std::fmt;

/// How a run stands.
#[derive(Clone, Copy, PartialEq, Eq, Debug)]
pub enum Condition {
    /// More steps may be made.
    Going,
    /// The current entry is a value.
    Finished,
    /// A check met a guard whose role the context role does not dominate.
    RoleFault {
        check: u32,
        guard: u64,
        context: u64,
    },
    /// An entry has an operand of a wrong shape.
    ShapeFault {
        entry: u32,
    },
    /// The next step needs more places than are free.
    TableFull,
}

impl Condition {
    /// The number of the condition.
    pub fn number(self) -> u8
        ensures { result ≡ number_of self }
    {
        match self {
            Condition::Going => 0,
            Condition::Finished => 1,
            Condition::RoleFault { .. } => 2,
            Condition::ShapeFault { .. } => 3,
            Condition::TableFull => 4,
        }
    }

    /// The values of the condition, 0 where it has fewer than three.
    pub fn values(self) -> [u64; 3]
        ensures { result ≡ values_of self }
    {
        match self {
            Condition::RoleFault {
                check,
                guard,
                context,
            } => [check as u64, guard, context],
            Condition::ShapeFault { entry } => [entry as u64, 0, 0],
            _ => [0, 0, 0],
        }
    }

    /// Has a run in this condition ended?
    pub fn ended(self) -> bool
        ensures { result ≡ ends self }
    {
        !matches!(self, Condition::Going | Condition::TableFull)
    }
}

impl fmt::Display for Condition {
    fn fmt<W: fmt::Write>(&self, f: &mut fmt::Formatter<W>) -> fmt::Result {
        match self {
            Condition::Going => write!(f, "going"),
            Condition::Finished => write!(f, "finished"),
            Condition::RoleFault {
                check,
                guard,
                context,
            } => write!(
                f,
                "role fault at entry {check}, guard {guard}, context {context}"
            ),
            Condition::ShapeFault { entry } => write!(f, "shape fault at entry {entry}"),
            Condition::TableFull => write!(f, "table full"),
        }
    }
}
