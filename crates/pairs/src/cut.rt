//! Where a code is cut.
ghost use Rattle.std.specs.Prelude.{◌<◌};

/// Where the codes of a sound pair are cut: so many low bits are the second's part.
#[derive(Clone, Copy)]
pub(crate) struct Cut {
    pub width: u32,
    ghost inside: { width < 64 },
}
