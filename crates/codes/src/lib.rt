//! 64-bit codes by their bits and their bytes: what the kinds of scheme and the block share.
#![tactic(auto)]

pub mod bits;
pub mod bytes;
