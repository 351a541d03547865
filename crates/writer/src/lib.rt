// The listing of a run, written line by line into memory that the caller lends.
#![tactic(auto)]

#[cfg(test)]
mod tests;
mod widths;
pub mod writer;

pub use writer::Writer;
