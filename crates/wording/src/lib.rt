//! The dispatcher's report in plain lines that a technician can read aloud.
#![tactic(auto)]

use blocks::block::Block;
use codes::bits::holds;
use dispatcher::report::{Decision, Refusal, Report};
use roles::fault::Fault;
use roles::scheme::Scheme;
use std::fmt;

/// A report, to be printed: a line for the scheme, one for each code, one for the decision.
#[derive(Clone, Copy)]
pub struct Spoken(pub Report);

// The line of the scheme: kind, size, sound or not, width.
fn show_scheme<W: fmt::Write>(scheme: &Block, f: &mut fmt::Formatter<W>) -> fmt::Result {
    let sound = if scheme.sound() { "sound" } else { "not sound" };
    let width = scheme.width();
    writeln!(f, "scheme: {scheme}, {sound}, width {width}")
}

// The numbers of the roles that a code holds, of so many.
fn show_held<W: fmt::Write>(count: u32, code: u64, f: &mut fmt::Formatter<W>) -> fmt::Result {
    let mut held = (0..count).filter(|j| holds(code, *j));
    let Some(first) = held.next() else {
        return write!(f, ", holds none of the roles");
    };
    write!(f, ", holds roles {first}")?;
    for j in held {
        write!(f, ", {j}")?;
    }
    Ok(())
}

// What a code holds, where its scheme numbers roles.
fn show_parts<W: fmt::Write>(scheme: &Block, code: u64, f: &mut fmt::Formatter<W>) -> fmt::Result {
    match scheme {
        Block::Mask(_) | Block::Ladder(_) => Ok(()),
        Block::Hierarchy(hierarchy) => show_held(hierarchy.count, code, f),
        Block::Ranked(pair) => {
            show_held(pair.first.count, code >> 8, f)?;
            let rank = code % 256;
            write!(f, " and rank {rank}")
        }
    }
}

// The line of a code: its number, what it holds, and whether it is a role.
fn show_code<W: fmt::Write>(
    name: &str,
    scheme: &Block,
    code: u64,
    f: &mut fmt::Formatter<W>,
) -> fmt::Result {
    write!(f, "{name}: {code}")?;
    show_parts(scheme, code, f)?;
    if scheme.is_role(code) {
        writeln!(f, "")
    } else {
        writeln!(f, ", no role of the scheme")
    }
}

// The line of the decision.
fn show_decision<W: fmt::Write>(
    decision: Result<Decision, Refusal>,
    f: &mut fmt::Formatter<W>,
) -> fmt::Result {
    match decision {
        Ok(decision) => writeln!(f, "decision: {decision}"),
        Err(refusal) => {
            let number = refusal.number();
            writeln!(f, "decision: refused with number {number}, {refusal}")
        }
    }
}

impl fmt::Display for Spoken {
    fn fmt<W: fmt::Write>(&self, f: &mut fmt::Formatter<W>) -> fmt::Result {
        let report = self.0;
        if let Some(scheme) = report.scheme {
            show_scheme(&scheme, f)?;
            if let Some(codes) = report.codes {
                show_code("role on duty", &scheme, codes.on_duty, f)?;
                show_code("bound", &scheme, codes.bound, f)?;
            }
        }
        show_decision(report.decision, f)
    }
}
