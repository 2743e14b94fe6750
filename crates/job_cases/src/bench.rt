//! Images laid out for the cases, and what is told of them.
use jobs::fault::ImageFault;
use jobs::reader::read;
use jobs::writer::write;
use masks::Mask;
use roles::fault::Fault;
use std::alloc::{AllocError, Global};
pub(crate) use tables::entry::entry_of as e;
use tables::entry::{Counts, Entry};

/// The scheme of the cases: roles are the codes below 256.
pub(crate) const MASK: Mask = Mask { width: 8 };

/// A base value of kind Unit.
pub(crate) fn unit() -> Entry {
    e(16, 0, 0, 0)
}

/// A base type.
pub(crate) fn base() -> Entry {
    e(1, 0, 0, 0)
}

// The tags of a table.
fn lay_tags(image: &mut Vec<u8>, table: &[Entry]) -> Result<(), AllocError> {
    for entry in table {
        image.push(entry.tag)?;
    }
    Ok(())
}

// The operands of a table.
fn lay_operands(image: &mut Vec<u8>, table: &[Entry]) -> Result<(), AllocError> {
    for entry in table {
        image.extend_from_slice(&entry.first.to_le_bytes())?;
        image.extend_from_slice(&entry.second.to_le_bytes())?;
        image.extend_from_slice(&entry.third.to_le_bytes())?;
    }
    Ok(())
}

/// The image of two tables, asked nothing.
pub(crate) fn lay(heap: Global, types: &[Entry], terms: &[Entry]) -> Result<Vec<u8>, AllocError> {
    let mut image = Vec::new(heap);
    let t = (types.len() % 65536) as u16;
    let n = (terms.len() % 65536) as u16;
    image.extend_from_slice(&t.to_le_bytes())?;
    image.extend_from_slice(&n.to_le_bytes())?;
    lay_tags(&mut image, types)?;
    lay_tags(&mut image, terms)?;
    lay_operands(&mut image, types)?;
    lay_operands(&mut image, terms)?;
    Ok(image)
}

// Number and place of a refusal; 0 and 0 if there is none.
fn told_by<T: Drop>(answer: Result<T, ImageFault>) -> (u8, u32) {
    match answer {
        Ok(_) => (0, 0),
        Err(fault) => (fault.number(), fault.place()),
    }
}

/// What a reading into lent tables of so many places is refused with.
pub(crate) fn told_with(image: &[u8], types: &mut [Entry], terms: &mut [Entry]) -> (u8, u32) {
    told_by(read(&MASK, image, types, terms))
}

// What a reading under the mask of a width is refused with.
fn told_under(width: u32, image: &[u8]) -> (u8, u32) {
    let mut types = [Entry::default(); 1536];
    let mut terms = [Entry::default(); 1024];
    told_by(read(&Mask { width }, image, &mut types, &mut terms))
}

/// What an image is refused with.
pub(crate) fn told(image: &[u8]) -> (u8, u32) {
    told_under(MASK.width, image)
}

/// The number of a fault of reading under another scheme.
pub(crate) fn number_under(width: u32, image: &[u8]) -> u8 {
    told_under(width, image).0
}

/// What the image of two tables is refused with.
pub(crate) fn refused(
    heap: Global,
    types: &[Entry],
    terms: &[Entry],
) -> Result<(u8, u32), AllocError> {
    let image = lay(heap, types, terms)?;
    Ok(told(image.as_slice()))
}

/// What a job of one unit and of these types is refused with.
pub(crate) fn type_refused(heap: Global, types: &[Entry]) -> Result<(u8, u32), AllocError> {
    refused(heap, types, &[unit()])
}

/// What a job of two types and of these terms is refused with.
pub(crate) fn term_refused(heap: Global, terms: &[Entry]) -> Result<(u8, u32), AllocError> {
    refused(heap, &[base(), base()], terms)
}

/// What a writing is refused with.
pub(crate) fn write_told(
    counts: Counts,
    types: &[Entry],
    terms: &[Entry],
    out: &mut [u8],
) -> (u8, u32) {
    told_by(write(&MASK, counts, types, terms, out))
}
