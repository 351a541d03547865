// The listing of a run sheet.
#![tactic(auto)]

pub mod list;
mod planned;
mod session;
mod tally;
