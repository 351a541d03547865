// Run sheets: what they say where they are of their form, and their faults where they are not.
#![tactic(auto)]

pub mod reader;
pub mod sheet;
