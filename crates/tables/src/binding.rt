//! The question of binding: every variable has a binder.
ghost use Rattle.std.specs.Prelude.{◌≡◌, ℕ, ◌+◌, ◌-◌, ◌<◌, ◌≤◌, length};
ghost use Rattle.tables.specs.Asking.{of_each};
ghost use Rattle.tables.specs.Depths.{bound_at, depths, hand_down};
ghost use Rattle.tables.specs.Form.{ask_bound};
ghost use Rattle.tables.specs.Lower.{Lower};

use crate::entry::Entry;
use crate::fault::FormFault;
use crate::operand::{VARIABLE, ask, binds, named_terms, operand_of};
use crate::terms::Terms;

// Hands the depth of term `i` down to the term of that number that it names, if it names so many.
fn hand_down(depths: &mut [u16], e: Entry, number: u8, i: usize, depth: u16)
    requires long { length depths.old ≡ 1024 }
    requires inside { i < 1024 }
    requires lower { Lower e i }
    requires low { depth ≤ 1024 }
    ensures { depths.new ≡ hand_down e number depth depths.old }
{
    if number < named_terms(e.tag) {
        let below = operand_of(e, number) as usize;
        depths[below] = if binds(e.tag, number) {
            depth + 1
        } else {
            depth
        };
    }
}

// Has the entry, under so many binders, a binder if it is a variable?
fn is_bound(e: Entry, depth: u16) -> bool
    ensures { result ≡ bound_at e depth }
{
    e.tag != VARIABLE || e.first < depth as u32
}

impl Terms<'_> {
    // Under how many binders each term stands, handed down from the last term.
    fn depths(&self) -> [u16; 1024]
        ensures { result ≡ depths self.now.entries.now }
    {
        // Stays: a local array beside the entries, since a scan of form may not fail for want of memory.
        let mut depths = [0u16; 1024];
        for (i, e) in self.entries.iter().enumerate().rev() {
            let depth = depths[i];
            hand_down(&mut depths, *e, 0, i, depth);
            hand_down(&mut depths, *e, 1, i, depth);
        }
        depths
    }

    /// The question of binding to each term, lowest first.
    pub(crate) fn ask_bound(&self) -> Result<(), FormFault>
        ensures { result ≡ of_each (ask_bound self.now.t self.now.entries.now) (length self.now.entries.now) 0 }
    {
        let depths = self.depths();
        for (i, e) in self.entries.iter().enumerate() {
            let place = self.t + i as u32;
            ask(is_bound(*e, depths[i]), FormFault::Unbound { place })?;
        }
        Ok(())
    }
}
