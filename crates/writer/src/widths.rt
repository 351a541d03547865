// How many bytes the fields of a line take.
ghost use Rattle.std.specs.Prelude.{◌≡◌, ◌≤◌, ◌∷◌, map, length, decimal};
ghost use Rattle.text.specs.Faults.{layer_word};
ghost use Rattle.text.specs.Texts.{shown, figures};
ghost use Rattle.writer.specs.Listings.{stamped_line, mean_word};
ghost use Rattle.writer.specs.Steps.{bytes_taken, Leaves};

use text::fault::Layer;

pub(crate) fn digits(n: u32) -> usize
    ensures exact { result ≡ length (decimal n) }
    ensures few { result ≤ 10 }
{
    n.checked_ilog10().unwrap_or(0) as usize + 1
}

// A mean in tenths is written with its point.
pub(crate) fn mean_width(mean: Option<u32>) -> usize
    ensures exact { result ≡ length (mean_word mean) }
    ensures few { result ≤ 12 }
{
    mean.map_or(1, |tenths| digits(tenths / 10) + 2)
}

// Beside Layer's Display: the words of a listing are fixed byte strings.
pub(crate) fn layer_word(layer: Layer) -> &'static [u8]
    ensures exact { result.now ≡ layer_word layer }
    ensures few { length result.now ≤ 7 }
{
    match layer {
        Layer::Sheet => b"sheet",
        Layer::Layout => b"layout",
        Layer::Network => b"network",
    }
}

// What is left of the room after the numbers, each with a space before it.
// Counted down from the room, since the bytes of a long slice of numbers need not fit a usize.
// A loop: a `for` with `?` is as plain as a `try_fold`, whose goal stayed open.
pub(crate) fn after_numbers(room: usize, numbers: &[u32]) -> Option<usize>
    ensures { Leaves room (bytes_taken (figures numbers.now)) result }
{
    let mut left = room;
    for n in numbers {
        left = left.checked_sub(digits(*n) + 1)?;
    }
    Some(left)
}

// The same for a line of a cycle: its number, a word and one number or more.
pub(crate) fn after_stamped(
    room: usize,
    cycle: u32,
    kind: &[u8],
    first: u32,
    more: &[u32],
) -> Option<usize>
    ensures { Leaves room (bytes_taken (map shown (stamped_line cycle kind.now (first ∷ more.now)))) result }
{
    let left = after_numbers(room, more)?.checked_sub(kind.len())?;
    left.checked_sub(digits(cycle) + digits(first) + 3)
}
