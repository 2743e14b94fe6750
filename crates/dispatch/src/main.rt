//! Reads a scheme block, the role on duty and a job's bound, and prints what the dispatcher may do.
#![tactic(auto)]

use dispatcher::decide::report;
use std::io;
use std::io::Read;
use wording::Spoken;

fn main(rt: HostRuntime) -> io::Result<()> {
    let mut input = Vec::new(rt.alloc());
    let _count = rt.stdin().read_to_end(&mut input)?;
    let answer = Spoken(report(&input));
    print!(rt; "{answer}")
}
