//! The verdict on an input in plain lines that people can read aloud: each check's answer, what its number means, and the entry at its place.
#![tactic(auto)]

mod entry;
mod meaning;

use crate::entry::{entry_at, tag_name};
use crate::meaning::{is_of_entry, meaning};
use blocks::read::read_block;
use roles::fault::Fault;
use station::judge::verdict;
use station::refusal::Refusal;
use std::fmt;
use tables::entry::Entry;

/// An input, to be printed as the verdict on it: a line for each check, and one for the entry that a refusal means.
#[derive(Clone, Copy)]
pub struct Spoken<'a> {
    pub input: &'a [u8],
}

// The line of the entry that a refusal means, if it means one that is there.
fn show_entry<W: fmt::Write>(
    input: &[u8],
    refusal: Refusal,
    f: &mut fmt::Formatter<W>,
) -> fmt::Result {
    let place = refusal.place();
    match read_block(input) {
        Ok((_, image)) if is_of_entry(refusal) => match entry_at(image, place as usize) {
            Some(entry) => {
                let Entry {
                    tag,
                    first,
                    second,
                    third,
                } = entry;
                let name = tag_name(tag);
                writeln!(
                    f,
                    "  entry at place {place}: tag {tag}, {name}; operands {first}, {second}, {third}"
                )
            }
            None => Ok(()),
        },
        _ => Ok(()),
    }
}

// The lines of one check.
fn show_answer<W: fmt::Write>(
    name: &str,
    input: &[u8],
    answer: Result<u64, Refusal>,
    f: &mut fmt::Formatter<W>,
) -> fmt::Result {
    match answer {
        Ok(bound) => writeln!(f, "{name}: accepted, bound {bound}"),
        Err(refusal) => {
            let number = refusal.number();
            let place = refusal.place();
            let words = meaning(refusal);
            writeln!(
                f,
                "{name}: refused with number {number} at place {place}, {words}"
            )?;
            show_entry(input, refusal, f)
        }
    }
}

impl fmt::Display for Spoken<'_> {
    fn fmt<W: fmt::Write>(&self, f: &mut fmt::Formatter<W>) -> fmt::Result {
        let answers = verdict(self.input);
        show_answer("sufficient", self.input, answers.sufficient, f)?;
        show_answer("necessary", self.input, answers.necessary, f)
    }
}
