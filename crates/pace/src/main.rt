//! Reads what `rehearsal` reads, and makes the whole run by one advance: for measuring, and for long runs.
#![tactic(auto)]

use run_words::{Pace, Spoken};
use std::io;
use std::io::Read;

fn main(rt: HostRuntime) -> io::Result<()> {
    let mut input = Vec::new(rt.alloc());
    let _count = rt.stdin().read_to_end(&mut input)?;
    let run = Spoken {
        input: &input,
        pace: Pace::AtOnce,
    };
    print!(rt; "{run}")
}
