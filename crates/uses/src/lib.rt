// What a caller of a network gets from the contracts of its calls alone.
#![tactic(auto)]

pub mod cycles;
pub mod packet;
