//! The two checks of a job: the sufficient and the necessary bound of its type, or the first question answered with no.
#![tactic(auto)]

pub mod check;
pub mod clearance;
pub mod compare;
pub mod fault;
pub mod judge;
pub mod system;
pub mod table;
pub mod walk;
