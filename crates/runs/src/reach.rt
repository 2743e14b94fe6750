//! How far the free variables of each used entry reach.
ghost use Rattle.std.specs.Prelude.{◌≡◌, ◌+◌, ◌^◌, ◌<◌, ◌≤◌, true, length, take};
ghost use Rattle.runs.specs.Reach.{Ground, Known, ground_prop, lower, step_of};

use tables::entry::Entry;
use tables::operand::{ABSTRACTION, APPLICATION, LET, VALUE, VARIABLE};

/// The used entries of a table, which name lower ones, with their reaches. A turn writes none of them.
#[derive(Clone, Copy)]
pub(crate) struct Used<'a> {
    pub terms: &'a [Entry],
    pub reach: &'a [u16],
    ghost ground: { Ground terms.now } by { ground_prop terms.now },
    ghost known: { Known terms.now reach.now },
    ghost enough: { length terms.now ≤ length reach.now },
    ghost few: { length terms.now + 1 < 2 ^ 32 },
}

/// The reach of entry `i`, where those below it are known.
pub(crate) fn reach_step(e: Entry, i: usize, reach: &[u16]) -> u16
    requires { (lower e i ≡ true) × (i ≤ length reach.now) }
    ensures { result ≡ step_of e reach.now }
{
    match e.tag {
        VALUE => 0,
        VARIABLE => e.first as u16 + 1,
        ABSTRACTION => reach[e.first as usize].saturating_sub(1),
        APPLICATION => reach[e.first as usize].max(reach[e.second as usize]),
        LET => reach[e.first as usize].max(reach[e.second as usize].saturating_sub(1)),
        _ => reach[e.first as usize],
    }
}

/// Fills in the reaches of the entries from `from` on, where those below are known.
pub(crate) fn fill(terms: &[Entry], from: usize, reach: &mut [u16])
    requires { (from ≤ length terms.now) × ((length terms.now ≤ length reach.old) × ((Ground terms.now) × (Known (take from terms.now) reach.old))) }
    ensures { Known terms.now reach.new }
{
    // Stays: a count from `from` on is plainer than `terms.iter().enumerate().skip(from)`.
    for i in from..terms.len() {
        reach[i] = reach_step(terms[i], i, reach);
    }
}
