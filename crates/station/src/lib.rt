//! The station's verdict on an input: a scheme block and a job image, judged by both checks.
#![tactic(auto)]

pub mod judge;
pub mod refusal;
pub mod verdict;
