//! What the dispatcher is asked, and what it answers.
ghost use Rattle.std.specs.Prelude.{◌≡◌};
ghost use Rattle.dispatcher.specs.Decide.{number_of, place_of};
ghost use Rattle.dispatcher.specs.declared.report.Refusal.TheVariants as refusal;

use blocks::block::{Block, BlockFault};
use roles::fault::Fault;
use roles::scheme::SchemeFault;
use std::fmt;

/// The two role codes that are compared.
#[derive(Clone, Copy, PartialEq, Eq, Debug)]
pub struct Codes {
    pub on_duty: u64,
    pub bound: u64,
}

/// Why nothing was decided.
#[derive(Clone, Copy, PartialEq, Eq, Debug)]
pub enum Refusal {
    /// The input does not begin with a scheme block.
    Block(BlockFault),
    /// The scheme is refused.
    Scheme(SchemeFault),
    /// Fewer than 16 bytes follow the block.
    TooShort,
    /// More than 16 bytes follow the block.
    TooLong,
    /// The bound is no role of the scheme.
    BoundNoRole,
    /// The role on duty is no role of the scheme.
    DutyNoRole,
}

/// What the dispatcher may do.
#[derive(Clone, Copy, PartialEq, Eq, Debug)]
pub enum Decision {
    /// The role on duty dominates the bound.
    MayStart,
    /// The role on duty does not dominate the bound.
    MayNotStart,
}

/// What the input held, as far as it was read, and what was decided.
#[derive(Clone, Copy)]
pub struct Report {
    pub scheme: Option<Block>,
    pub codes: Option<Codes>,
    pub decision: Result<Decision, Refusal>,
}

impl Fault for Refusal {
    ghost number_of = { number_of };

    ghost place_of = { place_of };

    fn number(&self) -> u8 {
        match self {
            Refusal::Block(fault) => fault.number(),
            Refusal::Scheme(fault) => fault.number(),
            Refusal::TooShort => 3,
            Refusal::TooLong => 5,
            Refusal::BoundNoRole => 9,
            Refusal::DutyNoRole => 30,
        }
    }

    fn place(&self) -> u32 {
        match self {
            Refusal::Block(fault) => fault.place(),
            Refusal::Scheme(fault) => fault.place(),
            _ => 0,
        }
    }
}

impl From<BlockFault> for Refusal {
    ghost from_gives = { λ e r. r ≡ refusal.Block e };

    fn from(e: BlockFault) -> Refusal {
        Refusal::Block(e)
    }
}

impl From<SchemeFault> for Refusal {
    ghost from_gives = { λ e r. r ≡ refusal.Scheme e };

    fn from(e: SchemeFault) -> Refusal {
        Refusal::Scheme(e)
    }
}

impl fmt::Display for Refusal {
    fn fmt<W: fmt::Write>(&self, f: &mut fmt::Formatter<W>) -> fmt::Result {
        match self {
            Refusal::Block(fault) => write!(f, "{fault}"),
            Refusal::Scheme(fault) => write!(f, "{fault}"),
            Refusal::TooShort => f.write_str(
                "the input is too short, two codes of 8 bytes follow the scheme block",
            ),
            Refusal::TooLong => f.write_str(
                "the input is too long, only two codes of 8 bytes follow the scheme block",
            ),
            Refusal::BoundNoRole => f.write_str("the bound is no role of the scheme"),
            Refusal::DutyNoRole => f.write_str("the role on duty is no role of the scheme"),
        }
    }
}

impl fmt::Display for Decision {
    fn fmt<W: fmt::Write>(&self, f: &mut fmt::Formatter<W>) -> fmt::Result {
        f.write_str(match self {
            Decision::MayStart => "may start, the role on duty dominates the bound",
            Decision::MayNotStart => {
                "may not start, the role on duty does not dominate the bound"
            }
        })
    }
}
