//! Role schemes: which 64-bit codes are roles, which role dominates which, and the laws of the two.
//! A kind of scheme implements `Scheme` in a crate of its own; what stands above is proved once, from the laws.
#![tactic(auto)]

pub mod fault;
pub mod refusal;
pub mod scheme;
