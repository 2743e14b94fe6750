//! Why an input is refused.
ghost use Rattle.std.specs.Prelude.{◌≡◌};
ghost use Rattle.station.specs.Refusals.{number_of, place_of};
ghost use Rattle.station.specs.declared.refusal.Refusal.TheVariants.{Block, Image, Check};

use blocks::block::BlockFault;
use checks::fault::CheckFault;
use jobs::fault::ImageFault;
use roles::fault::Fault;

/// The first question that was answered with no, as the layer below told it.
#[derive(Clone, Copy, PartialEq, Eq, Debug)]
pub enum Refusal {
    /// The bytes begin with no scheme block.
    Block(BlockFault),
    /// The rest is no image of a job under the scheme.
    Image(ImageFault),
    /// The job fails a check.
    Check(CheckFault),
}

impl Fault for Refusal {
    ghost number_of = { number_of };

    ghost place_of = { place_of };

    fn number(&self) -> u8 {
        match self {
            Refusal::Block(fault) => fault.number(),
            Refusal::Image(fault) => fault.number(),
            Refusal::Check(fault) => fault.number(),
        }
    }

    fn place(&self) -> u32 {
        match self {
            Refusal::Block(fault) => fault.place(),
            Refusal::Image(fault) => fault.place(),
            Refusal::Check(fault) => fault.place(),
        }
    }
}

impl From<BlockFault> for Refusal {
    ghost from_gives = { λ e r. r ≡ Block e };

    fn from(e: BlockFault) -> Refusal {
        Refusal::Block(e)
    }
}

impl From<ImageFault> for Refusal {
    ghost from_gives = { λ e r. r ≡ Image e };

    fn from(e: ImageFault) -> Refusal {
        Refusal::Image(e)
    }
}

impl From<CheckFault> for Refusal {
    ghost from_gives = { λ e r. r ≡ Check e };

    fn from(e: CheckFault) -> Refusal {
        Refusal::Check(e)
    }
}
