//! Cases of job images: a table of damaged ones with the refusal of each, and jobs at every limit.
#![tactic(auto)]

#[cfg(test)]
mod bench;
#[cfg(test)]
mod limits;
#[cfg(test)]
mod outlines;
#[cfg(test)]
mod term_faults;
#[cfg(test)]
mod type_faults;
#[cfg(test)]
mod whole_faults;
