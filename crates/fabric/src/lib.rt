// What every part of the model speaks of: ports, slots, cables and flits, refusals, and layouts.
#![tactic(auto)]

pub mod layout;
pub mod mesh;
pub mod parts;
pub mod refusal;
