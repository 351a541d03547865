// The lines of a text, one after another.
ghost use Rattle.std.specs.Prelude.{◌+◌, ◌≤◌, length};

mod methods;

// The bytes that a text has at most.
pub const MOST_BYTES: usize = 65536;

// What is left to read of a text, after `read` lines of it.
#[derive(Drop)]
pub struct Lines<'a> {
    rest: &'a [u8],
    read: u32,
    ghost short: { read + length rest.now ≤ 65536 },
}
