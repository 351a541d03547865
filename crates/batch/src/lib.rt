// A list in memory of its own, for where nothing is allocated.
#![tactic(auto)]

pub mod batch;

pub use batch::Batch;
