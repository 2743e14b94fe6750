//! The two systems of the calculus.

/// Which bound a check is about.
#[derive(Clone, Copy, PartialEq, Eq, Debug)]
pub enum System {
    /// A role under which a run meets no role fault.
    Sufficient,
    /// A role without which a run yields no value.
    Necessary,
}
