//! The question of size: a type, written out, has at most 4,096 parts.
ghost use Rattle.std.specs.Prelude.{◌≡◌, ℕ, ◌<◌, ◌≤◌, true, length, slice_index};
ghost use Rattle.tables.specs.Asking.{of_each};
ghost use Rattle.tables.specs.Entries.{type_operands};
ghost use Rattle.tables.specs.Form.{ask_type};
ghost use Rattle.tables.specs.Sizes.{size_by};

use crate::entry::Entry;
use crate::fault::FormFault;
use crate::operand::{BASE, FUNCTION, ask, ask_type};
use roles::scheme::Scheme;

// The size of type `i`, from the sizes of the types below it.
fn written_out(e: Entry, i: u32, sizes: &[u32]) -> u32
    requires fits { type_operands e i ≡ true }
    requires inside { i < length sizes.now }
    requires small { (k : ℕ) → k < i → slice_index sizes.now k ≤ 4096 }
    ensures { result ≡ size_by e sizes.now }
{
    match e.tag {
        BASE => 1,
        FUNCTION => 1 + (sizes[e.first as usize] + sizes[e.second as usize]),
        _ => 1 + sizes[e.first as usize],
    }
}

/// The questions to each type, lowest first: tag, operands, role and size.
pub(crate) fn ask_types<S: Scheme>(scheme: &S, types: &[Entry]) -> Result<(), FormFault>
    requires { length types.now ≤ 512 }
    ensures { result ≡ of_each (ask_type (S.meaning scheme.now).role types.now) (length types.now) 0 }
{
    // Stays: a local array beside the entries, since a scan of form may not fail for want of memory.
    let mut sizes = [0u32; 512];
    for (i, e) in types.iter().enumerate() {
        let place = i as u32;
        ask_type(scheme, *e, place)?;
        let size = written_out(*e, place, &sizes);
        ask(size <= 4096, FormFault::Size { place, size })?;
        sizes[i] = size;
    }
    Ok(())
}
