// Texts in lines of fields: their fields, numbers and faults, and what each kind of line of a run sheet says.
#![tactic(auto)]

pub mod fault;
pub mod field;
pub mod lines;
mod number;
pub mod parts;
pub mod rows;
