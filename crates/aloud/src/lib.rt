//! A job in lines that two people can read aloud: one entry to a line, with its place and its form in words.
#![tactic(auto)]

mod base;
mod refusal;
mod term_lines;
mod type_words;

use crate::refusal::show_refusal;
use crate::term_lines::TermAt;
use crate::type_words::TypeAt;
use blocks::block::Block;
use blocks::read::read_block;
use jobs::reader::read;
use std::fmt;
use tables::entry::{Counts, Entry};

/// A scheme block and an image, to be printed as the job that they hold or as what they are refused with.
#[derive(Clone, Copy)]
pub struct Spoken<'a>(pub &'a [u8]);

// Stays: whole tables with the counts beside them, as a reading leaves them. Slices would want a proof here that the counts fit.
// A job whose entries stand in the first places of two tables.
#[derive(Clone, Copy)]
struct Job<'a> {
    counts: Counts,
    types: &'a [Entry],
    terms: &'a [Entry],
}

impl Job<'_> {
    // A line for each type.
    fn show_types<W: fmt::Write>(&self, f: &mut fmt::Formatter<W>) -> fmt::Result {
        for place in 0..self.counts.types as usize {
            let written = TypeAt {
                types: self.types,
                place,
            };
            writeln!(f, "place {place}: type {written}")?;
        }
        Ok(())
    }
}

impl fmt::Display for Job<'_> {
    // The counts, the types, and the terms from the last one down.
    fn fmt<W: fmt::Write>(&self, f: &mut fmt::Formatter<W>) -> fmt::Result {
        let Counts { types: t, terms: n } = self.counts;
        writeln!(f, "job: types {t}, terms {n}")?;
        self.show_types(f)?;
        if n == 0 {
            return Ok(());
        }
        let last = TermAt {
            types: self.types,
            terms: self.terms,
            t,
            at: n - 1,
            level: 0,
        };
        write!(f, "{last}")
    }
}

// The job in an image, or its refusal.
fn show_image<W: fmt::Write>(
    scheme: &Block,
    image: &[u8],
    f: &mut fmt::Formatter<W>,
) -> fmt::Result {
    // Stays: tables of fixed size, since printing cannot tell that memory ran out.
    let mut types = [Entry::default(); 1536];
    let mut terms = [Entry::default(); 1024];
    match read(scheme, image, &mut types, &mut terms) {
        Ok(counts) => {
            let job = Job {
                counts,
                types: &types,
                terms: &terms,
            };
            write!(f, "{job}")
        }
        Err(fault) => show_refusal(&fault, &fault, f),
    }
}

impl fmt::Display for Spoken<'_> {
    fn fmt<W: fmt::Write>(&self, f: &mut fmt::Formatter<W>) -> fmt::Result {
        match read_block(self.0) {
            Ok((block, image)) => show_image(&block, image, f),
            Err(fault) => show_refusal(
                &fault,
                &"the scheme block is not whole or of no known kind",
                f,
            ),
        }
    }
}
