// Why a call is refused, in every crate. The settings are explained in bounds.
ghost use Rattle.std.specs.Prelude.{◌≡◌};
ghost use Rattle.fabric.specs.Refusals.{number};

// In the order of their numbers, from 1.
#[derive(Clone, Copy, PartialEq, Eq, Debug)]
pub enum Refusal {
    // set-up: the tickets a node or the words a packet are outside their limits
    Limits,
    // set-up: the epoch is shorter than the words need to arrive one after another, or too long
    Epoch,
    // set-up: the seed is 0 or wider than 16 bits
    Seed,
    // offer, collect, look: a node, a port or an own ticket does not exist
    Missing,
    // offer: the destination does not exist or is the offering node
    Destination,
    // offer: no words, or more than a packet has
    Words,
    // offer: the ticket is not free
    NotFree,
    // collect: the ticket is not complete, or its packet has another destination
    NotComplete,
    // collect, listing: the caller's memory is too short
    Memory,
    // cycle: no further cycle can be numbered
    Cycles,
    // cycle: the event line has too few free places
    Room,
    // layout: no node, or more than 64
    Nodes,
    // cabling: this cable, by its place in the list, does not fit
    Cable(usize),
    // cabling: this node has no way over cables from node 0
    Unreached(usize),
    // sheet: too many bytes
    Length,
    // sheet: a line is not of its form
    Form,
    // sheet: a count exceeds its limit
    Count,
    // line: a put finds it full
    Full,
}

impl Refusal {
    pub fn number(self) -> u8
        ensures { result ≡ number self }
    {
        match self {
            Refusal::Limits => 1,
            Refusal::Epoch => 2,
            Refusal::Seed => 3,
            Refusal::Missing => 4,
            Refusal::Destination => 5,
            Refusal::Words => 6,
            Refusal::NotFree => 7,
            Refusal::NotComplete => 8,
            Refusal::Memory => 9,
            Refusal::Cycles => 10,
            Refusal::Room => 11,
            Refusal::Nodes => 12,
            Refusal::Cable(_) => 13,
            Refusal::Unreached(_) => 14,
            Refusal::Length => 15,
            Refusal::Form => 16,
            Refusal::Count => 17,
            Refusal::Full => 18,
        }
    }
}
