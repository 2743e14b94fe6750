//! Cases of the verdict: an input and its 24 bytes, at least one for every number that a verdict can tell.
#![tactic(auto)]

#[cfg(test)]
mod verdicts;
