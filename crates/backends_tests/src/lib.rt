//! Tests of the backends and address spaces: the edges of every question about an address, and
//! accesses through stacks of adapters.

#![tactic(auto)]

#[cfg(test)]
mod callers;
#[cfg(test)]
mod places;
#[cfg(test)]
mod stack;
