//! The scheme block: a scheme of one of the four kinds as it travels in bytes.
#![tactic(auto)]

pub mod block;
pub mod kinds;
pub mod read;
