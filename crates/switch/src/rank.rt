// Ranks: which of two flits goes ahead.
ghost use Rattle.std.specs.Prelude.{◌≡◌};
ghost use Rattle.switch.specs.Ranks.{rank_of, rank_at, gives_way};

use fabric::parts::Flit;

// The lesser goes ahead.
#[derive(Clone, Copy, PartialEq, Eq, PartialOrd, Ord)]
pub enum Rank {
    // with the flit's number: the lower goes ahead
    Golden(u8),
    Ordinary,
}

impl Rank {
    pub fn of(flit: Flit, golden: usize) -> Rank
        ensures { result ≡ rank_of golden flit }
    {
        if usize::from(flit.ticket) == golden {
            Rank::Golden(flit.number)
        } else {
            Rank::Ordinary
        }
    }

    // The rank at a place, if a flit stands there.
    pub(crate) fn at(place: Option<Flit>, golden: usize) -> Option<Rank>
        ensures { result ≡ rank_at golden place }
    {
        place.map(|flit| Rank::of(flit, golden))
    }
}

// Whether the first gives way to the second: never to nothing, and to an equal only where both are ordinary and `tie` says so.
pub(crate) fn gives_way(first: Option<Rank>, second: Option<Rank>, tie: bool) -> bool
    ensures { result ≡ gives_way first second tie }
{
    match (first, second) {
        (_, None) => false,
        (None, Some(_)) => true,
        (Some(Rank::Ordinary), Some(Rank::Ordinary)) => tie,
        (Some(mine), Some(theirs)) => theirs < mine,
    }
}
