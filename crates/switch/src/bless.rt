// The bless switch: in the order of their rank, flits take their wishes, or else the first free port (in the field: oldest-first port allocation).
ghost use Rattle.std.specs.Prelude.{◌≡◌};
ghost use Rattle.switch.specs.Switches.{handed, turned};
ghost use Rattle.switch.specs.Sides.{held};
ghost use Rattle.switch.specs.Blesses.{sooner, outranked, better, best, first_free, chosen, bless_turn, BlessLaw};
ghost use Rattle.switch.specs.Ranked.{lowest_best};
ghost use Rattle.switch.specs.Blessed.{bless_leads, bless_steady};

use super::rank::{Rank, gives_way};
use super::switch::Switch;
use fabric::parts::{Flit, Port};

#[derive(Clone, Copy, Debug)]
pub struct Bless;

// Whether one flit goes before another, if both are ordinary.
fn is_sooner(one: Flit, other: Flit) -> bool
    ensures { result ≡ sooner one other }
{
    (one.entered, one.ticket, one.number) < (other.entered, other.ticket, other.number)
}

// Whether what stands at the first place ranks below what stands at the second.
fn is_outranked(first: Option<Flit>, second: Option<Flit>, golden: usize) -> bool
    ensures { result ≡ outranked golden first second }
{
    let tie = first.zip(second).is_some_and(|(f, g)| is_sooner(g, f));
    gives_way(Rank::at(first, golden), Rank::at(second, golden), tie)
}

// The slots that wait to be served, under a golden ticket.
// The flags stand beside the places, since a slot that holds no flit waits too and takes a port.
#[derive(Clone, Copy)]
struct Round {
    places: [Option<Flit>; 4],
    golden: usize,
    waiting: [bool; 4],
}

impl Round {
    // Of two slots the one to be served first, the first if equal.
    fn better(&self, one: Port, other: Port) -> Port
        ensures { result ≡ better self.now.golden self.now.places (held self.now.waiting) one other }
    {
        let (i, k) = (one.index(), other.index());
        let passed = self.waiting[k]
            && (!self.waiting[i] || is_outranked(self.places[i], self.places[k], self.golden));
        if passed { other } else { one }
    }

    // Of the slots that wait, the one to be served first.
    fn best(&self) -> Port
        ensures { result ≡ best self.now.golden self.now.places (held self.now.waiting) }
    {
        let north_east = self.better(Port::N, Port::E);
        let not_west = self.better(north_east, Port::S);
        self.better(not_west, Port::W)
    }
}

fn first_free_of(free: [bool; 4]) -> Port
    ensures { result ≡ first_free (held free) }
{
    Port::TRIED
        .iter()
        .copied()
        .find(|&port| free[port.index()])
        .unwrap_or(Port::S)
}

// The port that a flit with this wish takes.
fn choose(free: [bool; 4], wish: Option<Port>) -> Port
    ensures { result ≡ chosen (held free) wish }
{
    match wish {
        Some(port) if free[port.index()] => port,
        _ => first_free_of(free),
    }
}

impl Switch for Bless {
    ghost turn = { λ _. bless_turn };

    ghost lawful = { λ x.
        record {
          leads = λ h apart s f G low. bless_leads h s f (lowest_best h apart s f G low);
          steady = bless_steady;
        } };

    // The draw bits are not used.
    fn route(
        &self,
        places: [Option<Flit>; 4],
        wishes: [Option<Port>; 4],
        golden: usize,
        draws: [bool; 4],
    ) -> [Option<Flit>; 4]
        ensures value { result ≡ turned (bless_turn (handed places wishes golden draws)) places }
        ensures ranked { BlessLaw (handed places wishes golden draws) (bless_turn (handed places wishes golden draws)).to }
    {
        let mut out = [None; 4];
        let mut free = [true; 4];
        let mut round = Round {
            places,
            golden,
            waiting: [true; 4],
        };
        for _ in 0..4usize {
            let slot = round.best().index();
            let port = choose(free, wishes[slot]).index();
            out[port] = places[slot];
            round.waiting[slot] = false;
            free[port] = false;
        }
        out
    }
}

#[cfg(test)]
mod tests {
    use super::Bless;
    use crate::cases::{Case, GOLDEN, flit};
    use fabric::parts::Port;

    const DRAWS: [bool; 4] = [true; 4];

    #[test]
    fn table(rt: HostRuntime) {
        let [a, b, c] = [flit(1, 0, 4, 0), flit(2, 0, 3, 0), flit(2, 0, 3, 7)];
        let [d, x] = [flit(2, 1, 3, 0), flit(3, 0, 3, 0)];
        let [low, high, twin] = [
            flit(GOLDEN, 0, 8, 0),
            flit(GOLDEN, 1, 8, 0),
            flit(GOLDEN, 1, 2, 0),
        ];
        let [e, s, w] = [Some(Port::E), Some(Port::S), Some(Port::W)];
        let cases = [
            // by entry cycle, then by number, then by slot order: c, b, d, a
            Case {
                places: [a, d, c, b],
                wishes: [e, e, e, e],
                draws: DRAWS,
                out: [d, c, a, b],
            },
            // golden flits by number, of one number by slot order, and then the ordinary flit
            Case {
                places: [high, twin, low, a],
                wishes: [s, s, s, s],
                draws: DRAWS,
                out: [a, high, low, twin],
            },
            // wishes at empty places, a flit without a wish
            Case {
                places: [None, c, None, a],
                wishes: [e, None, w, w],
                draws: DRAWS,
                out: [None, c, None, a],
            },
            // by ticket, and wishes taken by one without a wish and by one deflected: high, b, x, a
            Case {
                places: [a, x, b, high],
                wishes: [w, e, e, None],
                draws: DRAWS,
                out: [x, high, a, b],
            },
        ];
        for case in cases {
            assert_eq!(rt; case.routed_by(&Bless), case.out);
        }
    }
}
