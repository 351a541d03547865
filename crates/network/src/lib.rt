// The network: what one is, and what every run of its calls keeps.
#![tactic(auto)]

pub mod event;
pub mod promise;
