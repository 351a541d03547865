// The memory of a line, and how much of it is in use.
ghost use Rattle.line.specs.Queues.{Sound};

mod places;
mod uses;

// A line (in the field: a ring buffer) is first in, first out.
// It fills the places of its memory in turn and round again; what it holds begins at the place `first`.
// The memory is a plain slice of the caller's, so the count stands beside it.
#[derive(Drop)]
pub struct Line<'a, T> {
    memory: &'a mut [T],
    first: usize,
    held: usize,
    ghost sound: { Sound (record { memory = memory.now; first = first; held = held }) },
}
