//! Entries of an image that was refused.
use tables::entry::Entry;
use tables::operand::{
    ABSTRACTION, APPLICATION, BASE, CHECK, COMPUTATION, FIX, FUNCTION, GUARD, GUARDED, LET, RAISE,
    RESTRICT, UNIT, VALUE, VARIABLE,
};

// Stays: the tag of an entry is a plain number, and any may stand there.
/// The name of a tag.
pub(crate) fn tag_name(tag: u8) -> &'static str {
    match tag {
        BASE => "base type",
        FUNCTION => "function type",
        GUARDED => "guarded type",
        COMPUTATION => "computation type",
        VALUE => "base value",
        VARIABLE => "variable",
        ABSTRACTION => "abstraction",
        APPLICATION => "application",
        FIX => "fix",
        GUARD => "guard",
        CHECK => "check",
        UNIT => "unit",
        LET => "let",
        RAISE => "raise",
        RESTRICT => "restrict",
        _ => "no tag",
    }
}

// Stays: an image that was refused may lack any part, so each is asked for. `jobs` reads where all are known to be there.
// The bytes of a part of the image, if they are there.
fn part<const N: usize>(image: &[u8], at: usize) -> Option<[u8; N]> {
    image.get(at..)?.first_chunk::<N>().copied()
}

/// The entry at a place of an image, if it is there.
pub(crate) fn entry_at(image: &[u8], place: usize) -> Option<Entry> {
    let types = u16::from_le_bytes(part(image, 0)?);
    let terms = u16::from_le_bytes(part(image, 2)?);
    let entries = types as usize + terms as usize;
    if place >= entries {
        return None;
    }
    let at = 4 + entries + 16 * place;
    Some(Entry {
        tag: image.get(4 + place).copied()?,
        first: u32::from_le_bytes(part(image, at)?),
        second: u32::from_le_bytes(part(image, at + 4)?),
        third: u64::from_le_bytes(part(image, at + 8)?),
    })
}
