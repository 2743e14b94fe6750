//! The free places of a table.
ghost use Rattle.std.specs.Prelude.{◌+◌, ◌^◌, ◌<◌, length};

use tables::entry::Entry;

// Stays: the places are lent whole and filled one by one, so how many are filled stands beside them.
/// The free places of a table, behind `base` used ones; so many of them are filled.
#[derive(Drop)]
pub(crate) struct Room<'a> {
    pub free: &'a mut [Entry],
    pub base: u32,
    pub filled: u32,
    ghost fits: { base + length free.now < 2 ^ 32 },
}

impl Room<'_> {
    ghost use Rattle.runs.specs.Copy.{Wrote, fresh};

    /// Writes one entry into the next free place, and tells where it stands.
    pub(crate) fn append(&mut self, e: Entry) -> u32
        requires { self.old.filled < length self.old.free.now }
        ensures { Wrote self.old self.new (fresh (self.old.base + self.old.filled) e) result }
    {
        let filled = self.filled;
        self.free[filled as usize] = e;
        self.filled = filled + 1;
        self.base + filled
    }
}
