//! Reads a scheme block, an image, a role, a budget and a number of term places, and prints the rehearsal step by step.
#![tactic(auto)]

use run_words::{Pace, Spoken};
use std::io;
use std::io::Read;

fn main(rt: HostRuntime) -> io::Result<()> {
    let mut input = Vec::new(rt.alloc());
    let _count = rt.stdin().read_to_end(&mut input)?;
    let rehearsal = Spoken {
        input: &input,
        pace: Pace::EachStep,
    };
    print!(rt; "{rehearsal}")
}
