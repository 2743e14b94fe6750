//! Cases of the role schemes, the scheme block and the dispatcher, and a kind of scheme from outside their crates.
#![tactic(auto)]

#[cfg(test)]
mod blocks_read;
#[cfg(test)]
mod decisions;
#[cfg(test)]
mod kinds;
pub mod watch;
