//! The types of a table that a check works with.
ghost use Rattle.std.specs.Prelude.{◌≤◌, length};
ghost use Rattle.walks.specs.Places.{Grounded};

use crate::system::System;
use roles::scheme::Scheme;
use tables::entry::Entry;

/// The first `used` entries of a table, types under a scheme: those of the job, and those that a check of a system has found so far.
#[derive(Drop)]
pub(crate) struct Types<'a, S: Scheme> {
    pub(crate) scheme: &'a S,
    pub(crate) system: System,
    pub(crate) entries: &'a [Entry],
    // Stays: the caller lends the table whole, and the walk appends to it, so the number of its types stands beside it.
    pub(crate) used: u32,
    ghost long: { used ≤ length entries.now },
    ghost few: { used ≤ 2048 },
    ghost ground: { Grounded (S.meaning scheme.now).role entries.now used },
}
