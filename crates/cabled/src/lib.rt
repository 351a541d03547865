// Layouts that lists of cables make.
#![tactic(auto)]

pub mod cabled;
mod rounds;
mod wiring;
