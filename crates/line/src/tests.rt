// A line over no place, over one, and round the end.
ghost use Rattle.std.specs.Prelude.{◌≡◌, [], ◌∷◌};

use super::Line;
use fabric::refusal::Refusal;
use std::test::Fail;

// An element of several plain numbers.
#[derive(Clone, Copy, PartialEq, Eq, Debug)]
struct Entry {
    cycle: u32,
    node: u8,
}

const ONE: Entry = Entry { cycle: 1, node: 5 };

const TWO: Entry = Entry { cycle: 2, node: 6 };

// What a caller knows of its memory when the line's loan ends.
fn lent() -> [u8; 3]
    ensures { result ≡ 7 ∷ 2 ∷ 3 ∷ [] }
{
    let mut memory = [1, 2, 3];
    let mut line = Line::new(&mut memory);
    let _ = line.put(7);
    memory
}

#[test]
fn no_place(rt: HostRuntime) {
    let mut memory: [Entry; 0] = [];
    let mut line = Line::new(&mut memory);
    assert_eq!(rt; line.free(), 0);
    assert_eq!(rt; line.put(ONE), Err(Refusal::Full));
    assert_eq!(rt; line.len(), 0);
    assert_eq!(rt; line.take(), None);
}

#[test]
fn one_place(rt: HostRuntime) {
    let mut memory = [ONE];
    let mut line = Line::new(&mut memory);
    assert_eq!(rt; line.take(), None);
    assert_eq!(rt; line.put(TWO), Ok(()));
    assert_eq!(rt; line.put(ONE), Err(Refusal::Full));
    assert_eq!(rt; line.len(), 1);
    assert_eq!(rt; line.take(), Some(TWO));
    assert_eq!(rt; line.put(ONE), Ok(()));
    assert_eq!(rt; line.take(), Some(ONE));
}

#[test]
fn round_the_end(rt: HostRuntime) -> Result<(), Fail> {
    let mut memory = [0; 3];
    let mut line = Line::new(&mut memory);
    line.put(1)?;
    line.put(2)?;
    assert_eq!(rt; line.take(), Some(1));
    assert_eq!(rt; line.take(), Some(2));
    line.put(3)?;
    line.put(4)?;
    assert_eq!(rt; line.free(), 1);
    assert_eq!(rt; line.take(), Some(3));
    assert_eq!(rt; line.take(), Some(4));
    assert_eq!(rt; memory, [4, 2, 3]);
    Ok(())
}
