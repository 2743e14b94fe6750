//! What is found of a term when the types of its operands are known.
use tables::entry::Entry;

/// The type of a term.
#[derive(Clone, Copy, PartialEq, Eq, Debug)]
pub enum Finding {
    /// It is a type of the table, by its number.
    Known(u32),
    /// It is a new type, which is appended.
    New(Entry),
}
