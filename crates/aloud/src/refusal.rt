//! Refusals in a line.
use roles::fault::Fault;
use std::fmt;

/// The line of a refusal: its number, its place, and what it means.
pub(crate) fn show_refusal<F: Fault, D: fmt::Display, W: fmt::Write>(
    fault: &F,
    meaning: &D,
    f: &mut fmt::Formatter<W>,
) -> fmt::Result {
    let number = fault.number();
    let place = fault.place();
    writeln!(f, "refused: number {number}, place {place}, {meaning}")
}
