//! A run on lists of entries: trees with the numbers of their entries, what one step appends, an advance by a budget, and how these agree with the calculus.
//! The definitions are in specs/, and each function stands for one theorem about them.
#![tactic(auto)]

pub mod condition;
pub mod law;
