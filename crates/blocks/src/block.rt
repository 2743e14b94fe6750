//! What a block holds, its kinds, and why bytes are no block.
ghost use Rattle.blocks.specs.Numbers.{Decodes};
ghost use Rattle.blocks.specs.Format.{number_of, place_of};

use hierarchies::Hierarchy;
use ladders::Ladder;
use masks::Mask;
use pairs::Pair;
use roles::fault::Fault;
use std::fmt;

/// The scheme that a block holds.
#[derive(Clone, Copy)]
pub enum Block {
    Mask(Mask),
    Ladder(Ladder),
    Hierarchy(Hierarchy),
    /// A hierarchy, and a rank below it.
    Ranked(Pair<Hierarchy, Ladder>),
}

/// Why bytes are no block.
#[derive(Clone, Copy, PartialEq, Eq, Debug)]
pub enum BlockFault {
    /// The bytes end within the block.
    NotWhole,
    /// The kind is above 3.
    UnknownKind(u8),
}

/// The kind of scheme that a block begins with.
#[derive(Clone, Copy, PartialEq, Eq, Debug)]
pub enum Kind {
    Mask,
    Ladder,
    Hierarchy,
    /// A hierarchy, and a rank below it.
    Ranked,
}

impl TryFrom<u8> for Kind {
    type Error = BlockFault;

    ghost try_from_gives = { Decodes };

    fn try_from(number: u8) -> Result<Kind, BlockFault> {
        match number {
            0 => Ok(Kind::Mask),
            1 => Ok(Kind::Ladder),
            2 => Ok(Kind::Hierarchy),
            3 => Ok(Kind::Ranked),
            _ => Err(BlockFault::UnknownKind(number)),
        }
    }
}

impl Fault for BlockFault {
    ghost number_of = { number_of };

    ghost place_of = { place_of };

    fn number(&self) -> u8 {
        match self {
            BlockFault::NotWhole | BlockFault::UnknownKind(_) => 1,
        }
    }

    fn place(&self) -> u32 {
        match self {
            BlockFault::NotWhole | BlockFault::UnknownKind(_) => 0,
        }
    }
}

impl fmt::Display for Block {
    fn fmt<W: fmt::Write>(&self, f: &mut fmt::Formatter<W>) -> fmt::Result {
        match self {
            Block::Mask(mask) => write!(f, "{mask}"),
            Block::Ladder(ladder) => write!(f, "{ladder}"),
            Block::Hierarchy(hierarchy) => write!(f, "{hierarchy}"),
            Block::Ranked(pair) => write!(f, "{pair}"),
        }
    }
}

impl fmt::Display for BlockFault {
    fn fmt<W: fmt::Write>(&self, f: &mut fmt::Formatter<W>) -> fmt::Result {
        match self {
            BlockFault::NotWhole => write!(f, "the scheme block is not whole"),
            BlockFault::UnknownKind(kind) => {
                write!(f, "there is no scheme of kind {kind}, kinds are 0 to 3")
            }
        }
    }
}
