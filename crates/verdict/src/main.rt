//! Reads a scheme block and a job image, and writes the 24 bytes of the verdict.
#![tactic(auto)]

use station::judge::judge;
use std::io;
use std::io::{Read, Write};

fn main(rt: HostRuntime) -> io::Result<()> {
    let mut input = Vec::new(rt.alloc());
    let _count = rt.stdin().read_to_end(&mut input)?;
    let answer = judge(&input);
    rt.stdout().write_all(&answer)
}
