//! What the reading or the writing of an image refuses with.
ghost use Rattle.std.specs.Prelude.{◌≡◌};
ghost use Rattle.jobs.specs.Faults.{number_of, place_of};
ghost use Rattle.jobs.specs.declared.fault.ImageFault.TheVariants.{Form};

use roles::fault::Fault;
use std::fmt;
use tables::fault::FormFault;

/// The first question about an image that was answered with no.
#[derive(Clone, Copy, PartialEq, Eq, Debug)]
pub enum ImageFault {
    /// A question of form.
    Form(FormFault),
    /// The image has fewer than four bytes.
    Short { length: usize },
    /// The image has not just the bytes of its entries.
    Length { length: usize },
    /// The output has not the image's length.
    Output { length: usize },
}

impl Fault for ImageFault {
    ghost number_of = { number_of };

    ghost place_of = { place_of };

    fn number(&self) -> u8 {
        match self {
            ImageFault::Form(fault) => fault.number(),
            ImageFault::Short { .. } => 3,
            ImageFault::Length { .. } => 5,
            ImageFault::Output { .. } => 13,
        }
    }

    fn place(&self) -> u32 {
        match self {
            ImageFault::Form(fault) => fault.place(),
            ImageFault::Short { .. } => 0,
            ImageFault::Length { .. } => 0,
            ImageFault::Output { .. } => 0,
        }
    }
}

impl fmt::Display for ImageFault {
    fn fmt<W: fmt::Write>(&self, f: &mut fmt::Formatter<W>) -> fmt::Result {
        match self {
            ImageFault::Form(fault) => write!(f, "{fault}"),
            ImageFault::Short { .. } => write!(f, "the image has fewer than four bytes"),
            ImageFault::Length { .. } => write!(
                f,
                "the image has not just the bytes of its entries"
            ),
            ImageFault::Output { .. } => write!(f, "the output has not the length of the image"),
        }
    }
}

impl From<FormFault> for ImageFault {
    ghost from_gives = { λ e r. r ≡ Form e };

    fn from(e: FormFault) -> ImageFault {
        ImageFault::Form(e)
    }
}
