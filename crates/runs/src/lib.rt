//! Runs: a role at work on a job's terms, step by step, in a lent table.
#![tactic(auto)]

mod copy;
pub mod fault;
mod find;
mod reach;
mod room;
pub mod run;
mod turn;
mod usable;
