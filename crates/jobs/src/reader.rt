//! A job read from its image into two lent tables.
ghost use Rattle.std.specs.Prelude.{◌≡◌, ◌≤◌, length};
ghost use Rattle.jobs.specs.Image.{image_length, terms_in, terms_told, types_in, types_told};
ghost use Rattle.jobs.specs.Reading.{Outlined, counts_told, outline_asked, read_told, short_asked, terms_left, types_left};
ghost use Rattle.tables.specs.Asking.{told};
ghost use Rattle.tables.specs.Form.{entries_asked};

use crate::decode::{bytes_at, decode};
use crate::fault::ImageFault;
use roles::scheme::Scheme;
use tables::entry::{Counts, Entry};
use tables::fault::FormFault;
use tables::form::{few, form, room, sound};
use tables::operand::ask;

/// How many bytes the image of so many entries has.
pub fn image_length(counts: Counts) -> usize
    ensures { result ≡ image_length counts.types counts.terms }
{
    4 + 17 * (counts.types as usize + counts.terms as usize)
}

// The counts that an image tells, if it has four bytes.
fn counts_told(image: &[u8]) -> Result<Counts, ImageFault>
    ensures { result ≡ told (short_asked image.now) (counts_told image.now) }
{
    let length = image.len();
    ask(length >= 4, ImageFault::Short { length })?;
    Ok(Counts {
        types: u16::from_le_bytes(bytes_at(image, 0)) as u32,
        terms: u16::from_le_bytes(bytes_at(image, 2)) as u32,
    })
}

// The questions before any entry is looked at, for tables of so many places.
fn outline<S: Scheme>(
    scheme: &S,
    image: &[u8],
    types: usize,
    terms: usize,
) -> Result<Counts, ImageFault>
    ensures { result ≡ told (outline_asked (S.meaning scheme.now) image.now (types_told image.now) (terms_told image.now) types terms) (counts_told image.now) }
{
    sound(scheme)?;
    let counts = counts_told(image)?;
    few(counts)?;
    let length = image.len();
    ask(
        length == image_length(counts),
        ImageFault::Length { length },
    )?;
    room(counts, types, terms)?;
    Ok(counts)
}

// The questions to the entries of an image, which are decoded into tables of our own.
fn examine<S: Scheme>(scheme: &S, image: &[u8], counts: Counts) -> Result<(), FormFault>
    requires { Outlined (S.meaning scheme.now) image.now counts.types counts.terms }
    ensures { result ≡ entries_asked (S.meaning scheme.now).role (types_in image.now counts.types counts.terms) (terms_in image.now counts.types counts.terms) }
{
    // Stays: tables of fixed size, since a reading may not fail for want of memory.
    let mut types = [Entry::default(); 1536];
    let mut terms = [Entry::default(); 1024];
    decode(image, counts, &mut types, &mut terms);
    form(scheme, counts, &types, &terms)
}

/// Reads an image into the first places of two tables and tells how many entries there are.
/// A refused image leaves both tables as they were; its fault is the first question answered with no.
pub fn read<S: Scheme>(
    scheme: &S,
    image: &[u8],
    types: &mut [Entry],
    terms: &mut [Entry],
) -> Result<Counts, ImageFault>
    ensures answer { result ≡ read_told (S.meaning scheme.now) image.now (length types.old) (length terms.old) }
    ensures types { types.new ≡ types_left (S.meaning scheme.now) image.now types.old terms.old }
    ensures terms { terms.new ≡ terms_left (S.meaning scheme.now) image.now types.old terms.old }
{
    let counts = outline(scheme, image, types.len(), terms.len())?;
    examine(scheme, image, counts)?;
    decode(image, counts, types, terms);
    Ok(counts)
}
