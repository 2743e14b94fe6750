//! A rehearsal in lines that a technician can read aloud: the bounds, the start, each step's current entry, and how it ended.
#![tactic(auto)]

mod entry_words;
mod job;
mod order;
mod refusal;

use crate::job::Job;
use crate::order::{Order, split};
use crate::refusal::{show_number, show_place};
use blocks::block::Block;
use blocks::read::read_block;
use jobs::reader::read;
use std::fmt;
use tables::entry::{Counts, Entry};

/// How a run is made and told.
#[derive(Clone, Copy, PartialEq, Eq, Debug)]
pub enum Pace {
    /// Step by step.
    EachStep,
    /// By one advance of the whole budget.
    AtOnce,
}

/// A scheme block, an image, a role, a budget and a number of term places, to be printed as the rehearsal that they ask for.
#[derive(Clone, Copy)]
pub struct Spoken<'a> {
    pub input: &'a [u8],
    pub pace: Pace,
}

// The job of an image, and its rehearsal.
fn show_job<W: fmt::Write>(
    scheme: &Block,
    image: &[u8],
    order: Order,
    pace: Pace,
    f: &mut fmt::Formatter<W>,
) -> fmt::Result {
    let places = order.places as usize;
    if places > 16384 {
        return writeln!(f, "refused: more than 16384 term places");
    }
    // Stays: tables of fixed size, since printing cannot tell that memory ran out.
    let mut types = [Entry::default(); 1536];
    let mut table = [Entry::default(); 16384];
    let terms = &mut table[..places];
    match read(scheme, image, &mut types, terms) {
        Err(fault) => show_place(&fault, f),
        Ok(counts) => {
            let Counts { types: t, terms: n } = counts;
            writeln!(f, "job: types {t}, terms {n}")?;
            let job = Job {
                scheme,
                counts,
                order,
                pace,
            };
            job.show_bounds(&mut types, terms, f)?;
            job.show_rehearsal(&types, terms, f)
        }
    }
}

// What an input asks for.
fn show_input<W: fmt::Write>(input: &[u8], pace: Pace, f: &mut fmt::Formatter<W>) -> fmt::Result {
    match read_block(input) {
        Err(fault) => {
            show_number(&fault, f)?;
            writeln!(f, ", the scheme block")
        }
        Ok((scheme, rest)) => match split(rest) {
            None => writeln!(
                f,
                "refused: a role, a budget and a number of term places follow the image"
            ),
            Some((image, order)) => show_job(&scheme, image, order, pace, f),
        },
    }
}

impl fmt::Display for Spoken<'_> {
    fn fmt<W: fmt::Write>(&self, f: &mut fmt::Formatter<W>) -> fmt::Result {
        show_input(self.input, self.pace, f)
    }
}
