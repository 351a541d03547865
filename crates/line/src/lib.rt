// The line: a queue over memory that the caller lends.
#![tactic(auto)]

pub mod ring;
#[cfg(test)]
mod tests;

pub use ring::Line;
