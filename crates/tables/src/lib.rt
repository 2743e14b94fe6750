//! The two lent tables of a job, types and terms, and the questions of form that are put to them.
#![tactic(auto)]

pub mod binding;
pub mod entry;
pub mod fault;
pub mod form;
pub mod operand;
pub mod size;
mod terms;
pub mod usage;
