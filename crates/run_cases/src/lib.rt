//! Cases of runs: small jobs to their end, refusals, and tables at their limits.
#![tactic(auto)]

#[cfg(test)]
mod bench;
#[cfg(test)]
mod jobs_run;
#[cfg(test)]
mod limits;
#[cfg(test)]
mod refusals;
