//! Jobs laid out for the cases, and what is told of their runs.
use masks::Mask;
use roles::fault::Fault;
use runs::fault::StartFault;
use runs::run::{Look, Progress, Run, rehearse};
pub(crate) use tables::entry::entry_of as e;
use tables::entry::{Counts, Entry};

/// The scheme of the cases: roles are the codes below 256.
pub(crate) const MASK: Mask = Mask { width: 8 };

/// A rehearsal of the first `n` terms, with one base type.
pub(crate) fn start(terms: &[Entry], n: u32, role: u64) -> Result<Run, StartFault> {
    let mut types = [Entry::default(); 1025];
    types[0] = e(1, 0, 0, 0);
    rehearse(&MASK, Counts { types: 1, terms: n }, &types, terms, role)
}

// What a run by one advance tells, and how it stands then; or the number of the refusal.
fn played(terms: &mut [Entry], n: u32, role: u64, budget: u64) -> Result<(Progress, Look), u8> {
    let mut run = start(terms, n, role).map_err(|fault| fault.number())?;
    let told = run.advance(&MASK, terms, budget);
    let look = run.close();
    let progress = told.map_err(|fault| fault.number())?;
    Ok((progress, look))
}

/// The number of the refusal or 0, the steps made, the condition's number and values, the places used and the current entry.
pub(crate) fn play(terms: &mut [Entry], n: u32, role: u64, budget: u64) -> [u64; 8] {
    match played(terms, n, role, budget) {
        Err(number) => [number as u64, 0, 0, 0, 0, 0, 0, 0],
        Ok((progress, look)) => {
            let [a, b, c] = progress.condition.values();
            let number = progress.condition.number() as u64;
            let used = look.used as u64;
            let current = look.current as u64;
            [0, progress.made as u64, number, a, b, c, used, current]
        }
    }
}
