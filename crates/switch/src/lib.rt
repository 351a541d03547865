// Switches: where each flit in a node's four slots leaves.
#![tactic(auto)]

pub mod bless;
#[cfg(test)]
mod cases;
pub mod chipper;
pub mod rank;
pub mod switch;
