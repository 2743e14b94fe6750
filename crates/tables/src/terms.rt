//! The terms of a job, when each by itself has been found to be in order.
ghost use Rattle.std.specs.Prelude.{◌≤◌, length};
ghost use Rattle.tables.specs.Lower.{Rooted};

use crate::entry::Entry;

/// The terms of a job of `t` types. Each names lower ones only.
#[derive(Clone, Copy)]
pub(crate) struct Terms<'a> {
    pub(crate) t: u32,
    pub(crate) entries: &'a [Entry],
    ghost types_few: { t ≤ 512 },
    ghost terms_some: { 1 ≤ length entries.now },
    ghost terms_few: { length entries.now ≤ 1024 },
    ghost rooted: { Rooted entries.now },
}
