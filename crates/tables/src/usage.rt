//! The question of use: every term but the last is named exactly once.
ghost use Rattle.std.specs.Prelude.{◌≡◌, ℕ, ◌+◌, ◌-◌, ◌<◌, ◌≤◌, length, slice_index};
ghost use Rattle.tables.specs.Asking.{of_each};
ghost use Rattle.tables.specs.Entries.{names};
ghost use Rattle.tables.specs.Form.{ask_use};
ghost use Rattle.tables.specs.Lower.{Lower};
ghost use Rattle.tables.specs.Uses.{hits, uses};

use crate::entry::Entry;
use crate::fault::FormFault;
use crate::operand::{ask, named_terms};
use crate::terms::Terms;

// Counts the terms that one entry names.
fn count(counts: &mut [u16], e: Entry, i: usize)
    requires long { length counts.old ≡ 1024 }
    requires inside { i < 1024 }
    requires lower { Lower e i }
    requires few { (k : ℕ) → slice_index counts.old k ≤ 2048 }
    ensures { (k : ℕ) → slice_index counts.new k ≡ slice_index counts.old k + hits e k }
{
    let n = named_terms(e.tag);
    if n > 0 {
        counts[e.first as usize] += 1;
    }
    if n > 1 {
        counts[e.second as usize] += 1;
    }
}

impl Terms<'_> {
    // How often each term is named.
    fn uses(&self) -> [u16; 1024]
        ensures { (k : ℕ) → slice_index result k ≡ uses self.now.entries.now k }
    {
        // Stays: a local array beside the entries, since a scan of form may not fail for want of memory.
        let mut counts = [0u16; 1024];
        for (i, e) in self.entries.iter().enumerate() {
            count(&mut counts, *e, i);
        }
        counts
    }

    /// The question of use to each term but the last, lowest first.
    pub(crate) fn ask_uses(&self) -> Result<(), FormFault>
        ensures { result ≡ of_each (ask_use self.now.t self.now.entries.now) (length self.now.entries.now - 1) 0 }
    {
        let uses = self.uses();
        let last = self.entries.len() - 1;
        for (i, &times) in uses[..last].iter().enumerate() {
            let place = self.t + i as u32;
            ask(times == 1, FormFault::Named { place, times })?;
        }
        Ok(())
    }
}
