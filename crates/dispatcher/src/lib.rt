//! The dispatcher's comparison: does the role on duty dominate a job's bound?
#![tactic(auto)]

pub mod decide;
pub mod report;
