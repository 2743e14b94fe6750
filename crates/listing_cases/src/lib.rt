//! Jobs as they are listed.
#![tactic(auto)]

#[cfg(test)]
mod examples;
