// What set-up fixes for a network.
ghost use Rattle.std.specs.Prelude.{◌≡◌};
ghost use Rattle.fabric.specs.Refusals.{shown};
ghost use Rattle.bounds.specs.SetUp.{set_up_verdict};

use fabric::layout::Layout;
use fabric::parts::{NODES, WORDS};
use fabric::refusal::Refusal;

// The tickets of one node, at most.
pub const MOST_OWN: usize = 8;

// The tickets of all nodes, at most.
pub const MOST_TICKETS: usize = NODES * MOST_OWN;

const LONGEST_EPOCH: usize = 4096;

const LAST_SEED: usize = 65535;

#[derive(Clone, Copy, PartialEq, Eq, Debug)]
pub struct Settings {
    // own tickets of each node: so many of its packets can be under way
    pub tickets: usize,
    // words that a packet may have
    pub words: usize,
    // the epoch (so called in the field too): for so many cycles one ticket is golden, and its flits go before all others
    pub epoch: usize,
    // what the draw register (an LFSR of 16 bits) begins with
    pub seed: usize,
}

impl Settings {
    // Whether a network of this layout may be set up so.
    pub fn judge<L: Layout>(&self, layout: &L) -> Result<(), Refusal>
        ensures { shown result ≡ set_up_verdict (L.plan layout.now) self.now }
    {
        let Settings {
            tickets,
            words,
            epoch,
            seed,
        } = *self;
        if !matches!((tickets, words), (1..=MOST_OWN, 1..=WORDS)) {
            return Err(Refusal::Limits);
        }
        let shortest = words * (layout.reach() + 1);
        if !(shortest..=LONGEST_EPOCH).contains(&epoch) {
            return Err(Refusal::Epoch);
        }
        if !matches!(seed, 1..=LAST_SEED) {
            return Err(Refusal::Seed);
        }
        Ok(())
    }
}
