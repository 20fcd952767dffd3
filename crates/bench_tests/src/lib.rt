//! Runs of simulated chips, worked out by hand from the rules.

#![tactic(auto)]

#[cfg(test)]
mod callers;
#[cfg(test)]
mod tables;
#[cfg(test)]
mod tests;
