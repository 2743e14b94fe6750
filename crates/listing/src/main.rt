//! Reads a scheme block and an image, and prints the job so that two people can read it aloud.
#![tactic(auto)]

use aloud::Spoken;
use std::io;
use std::io::Read;

fn main(rt: HostRuntime) -> io::Result<()> {
    let mut input = Vec::new(rt.alloc());
    let _count = rt.stdin().read_to_end(&mut input)?;
    let job = Spoken(&input);
    print!(rt; "{job}")
}
