//! Rehearsals in lines, as the program prints them.
#![tactic(auto)]

#[cfg(test)]
mod examples;
