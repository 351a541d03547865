// What a network's settings may be, how late a word can be under them, and which way a lone flit goes.
#![tactic(auto)]

pub mod limits;
pub mod path;
pub mod settings;
