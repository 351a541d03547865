// A network: its tables, and the calls that it answers.
#![tactic(auto)]

pub mod calls;
mod steps;
mod tables;
mod telling;
mod ticket;

pub use calls::Network;
