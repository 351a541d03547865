// The listing, written at the start of the caller's memory.
ghost use Rattle.std.specs.Prelude.{◌≤◌, length};

mod lines;
mod steps;

// The first `len` bytes of the memory are written. The count stands here, since the memory is a plain slice of the caller's.
#[derive(Drop)]
pub struct Writer<'a> {
    memory: &'a mut [u8],
    len: usize,
    ghost fits: { len ≤ length memory.now },
}
