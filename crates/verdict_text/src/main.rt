//! Reads a scheme block and a job image, and prints the verdict in plain lines.
#![tactic(auto)]

use std::io;
use std::io::Read;
use telling::Spoken;

fn main(rt: HostRuntime) -> io::Result<()> {
    let mut input = Vec::new(rt.alloc());
    let _count = rt.stdin().read_to_end(&mut input)?;
    let answer = Spoken { input: &input };
    print!(rt; "{answer}")
}
