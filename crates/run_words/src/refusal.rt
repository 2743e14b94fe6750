//! A refused call in words.
use roles::fault::Fault;
use std::fmt;

/// The beginning of the line: the number of the question that was answered with no.
pub(crate) fn show_number<F: Fault, W: fmt::Write>(
    fault: &F,
    f: &mut fmt::Formatter<W>,
) -> fmt::Result {
    let number = fault.number();
    write!(f, "refused: number {number}")
}

/// The number alone.
pub(crate) fn show_refused<F: Fault, W: fmt::Write>(
    fault: &F,
    f: &mut fmt::Formatter<W>,
) -> fmt::Result {
    show_number(fault, f)?;
    writeln!(f)
}

/// The number, and the place of the entry that is meant.
pub(crate) fn show_place<F: Fault, W: fmt::Write>(
    fault: &F,
    f: &mut fmt::Formatter<W>,
) -> fmt::Result {
    let place = fault.place();
    show_number(fault, f)?;
    writeln!(f, ", place {place}")
}
