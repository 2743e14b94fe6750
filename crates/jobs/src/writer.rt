//! A job written as its image.
ghost use Rattle.std.specs.Prelude.{◌≡◌, length};
ghost use Rattle.jobs.specs.Writing.{out_left, write_asked};

use crate::encode::encode;
use crate::fault::ImageFault;
use crate::reader::image_length;
use roles::scheme::Scheme;
use tables::entry::{Counts, Entry};
use tables::form::form;
use tables::operand::ask;

/// Writes the image of a job into an output of just its length.
/// A refusal leaves the output as it was; its fault is the first question answered with no.
pub fn write<S: Scheme>(
    scheme: &S,
    counts: Counts,
    types: &[Entry],
    terms: &[Entry],
    out: &mut [u8],
) -> Result<(), ImageFault>
    ensures answer { result ≡ write_asked (S.meaning scheme.now) counts.types counts.terms types.now terms.now (length out.old) }
    ensures out { out.new ≡ out_left (S.meaning scheme.now) counts.types counts.terms types.now terms.now out.old }
{
    form(scheme, counts, types, terms)?;
    let length = out.len();
    ask(
        length == image_length(counts),
        ImageFault::Output { length },
    )?;
    encode(
        &types[0..counts.types as usize],
        &terms[0..counts.terms as usize],
        out,
    );
    Ok(())
}
