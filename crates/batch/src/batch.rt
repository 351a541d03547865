// A batch: up to N values of one type, in the order in which they were put (in the field: a vector of fixed capacity).
// The kit's vectors of fixed capacity own their cells and cannot be copied.
ghost use Rattle.std.specs.Prelude.{◌≤◌};

mod calls;

#[derive(Copy, Debug)]
pub struct Batch<T, const N: usize> {
    places: [T; N],
    held: usize,
    ghost within: { held ≤ N },
}
