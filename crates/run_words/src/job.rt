//! A job that was read: its bounds and its rehearsal.
use crate::Pace;
use crate::entry_words::InWords;
use crate::order::Order;
use crate::refusal::{show_place, show_refused};
use blocks::block::Block;
use checks::check::{check_necessary, check_sufficient};
use checks::fault::CheckFault;
use runs::run::{Look, Run, rehearse};
use std::fmt;
use tables::entry::{Counts, Entry};

/// A job that was read, its scheme, and what is asked for.
#[derive(Clone, Copy)]
pub(crate) struct Job<'a> {
    pub scheme: &'a Block,
    pub counts: Counts,
    pub order: Order,
    pub pace: Pace,
}

// The line of one check: the bound, or the refusal.
fn show_check<W: fmt::Write>(
    name: &str,
    answer: Result<u64, CheckFault>,
    f: &mut fmt::Formatter<W>,
) -> fmt::Result {
    match answer {
        Ok(bound) => writeln!(f, "{name} bound: {bound}"),
        Err(fault) => {
            write!(f, "{name} check ")?;
            show_place(&fault, f)
        }
    }
}

// The line of where a run stands.
fn show_look<W: fmt::Write>(look: Look, terms: &[Entry], f: &mut fmt::Formatter<W>) -> fmt::Result {
    let Look {
        steps,
        used,
        current,
        ..
    } = look;
    let places = terms.len();
    write!(f, "step {steps}: entry {current}, ")?;
    match terms.get(current as usize) {
        Some(entry) => {
            let words = InWords(*entry);
            write!(f, "{words}")?;
        }
        None => write!(f, "no entry")?,
    }
    writeln!(f, ", {used} of {places} places used")
}

// The line of how a run ended.
fn show_end<W: fmt::Write>(look: Look, f: &mut fmt::Formatter<W>) -> fmt::Result {
    let Look {
        steps,
        condition,
        ..
    } = look;
    writeln!(f, "end: {condition} after {steps} steps")
}

impl Job<'_> {
    /// The lines of both checks. A rehearsal needs no clearance: it is given up, and its bound told.
    pub(crate) fn show_bounds<W: fmt::Write>(
        self,
        types: &mut [Entry],
        terms: &[Entry],
        f: &mut fmt::Formatter<W>,
    ) -> fmt::Result {
        // Stays: `bound_of` is no plainer than this line, which has the clearance in hand.
        let sufficient = check_sufficient(self.scheme, self.counts, types, terms).map(
            |clearance| clearance.discard(),
        );
        show_check("sufficient", sufficient, f)?;
        let necessary = check_necessary(self.scheme, self.counts, types, terms);
        show_check("necessary", necessary, f)
    }

    // A line for each step, as long as the budget lasts and steps are possible.
    fn show_steps<W: fmt::Write>(
        self,
        run: &mut Run,
        terms: &mut [Entry],
        f: &mut fmt::Formatter<W>,
    ) -> fmt::Result {
        for _ in 0..self.order.budget {
            let told = run.advance(self.scheme, terms, 1);
            if !told.is_ok_and(|progress| progress.made == 1) {
                return Ok(());
            }
            show_look(run.look(), terms, f)?;
        }
        Ok(())
    }

    // A run step by step: what is told with no budget, the steps, and the end.
    fn show_walk<W: fmt::Write>(
        self,
        run: &mut Run,
        terms: &mut [Entry],
        f: &mut fmt::Formatter<W>,
    ) -> fmt::Result {
        show_look(run.look(), terms, f)?;
        match run.advance(self.scheme, terms, 0) {
            Err(fault) => show_refused(&fault, f),
            Ok(_) => {
                self.show_steps(run, terms, f)?;
                show_end(run.look(), f)
            }
        }
    }

    // A run by one advance: where it stands then, and the end.
    fn show_advance<W: fmt::Write>(
        self,
        run: &mut Run,
        terms: &mut [Entry],
        f: &mut fmt::Formatter<W>,
    ) -> fmt::Result {
        match run.advance(self.scheme, terms, self.order.budget) {
            Err(fault) => show_refused(&fault, f),
            Ok(_) => {
                show_look(run.look(), terms, f)?;
                show_end(run.look(), f)
            }
        }
    }

    /// The lines of a rehearsal.
    pub(crate) fn show_rehearsal<W: fmt::Write>(
        self,
        types: &[Entry],
        terms: &mut [Entry],
        f: &mut fmt::Formatter<W>,
    ) -> fmt::Result {
        match rehearse(self.scheme, self.counts, types, terms, self.order.role) {
            Err(fault) => show_place(&fault, f),
            Ok(mut run) => {
                // Stays: two ways to tell a run, by name. A closure for each would have to be handed down through three calls.
                let shown = match self.pace {
                    Pace::EachStep => self.show_walk(&mut run, terms, f),
                    Pace::AtOnce => self.show_advance(&mut run, terms, f),
                };
                let _look = run.close();
                shown
            }
        }
    }
}
