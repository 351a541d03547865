// The chipper switch: four blocks, each of which lets two lanes pass straight or crossed (in the field: a permutation network of arbiters).
ghost use Rattle.std.specs.Prelude.{◌≡◌};
ghost use Rattle.switch.specs.Switches.{handed, turned};
ghost use Rattle.switch.specs.Chippers.{lane_of, by_second, wants_second, crossing, passed, chipper_turn, BlockLaw, ChipperLaw};
ghost use Rattle.switch.specs.Ranked.{lowest_best};
ghost use Rattle.switch.specs.Chipped.{chipper_leads, chipper_steady};

use super::rank::{Rank, gives_way};
use super::switch::Switch;
use fabric::parts::{Flit, Port};

#[derive(Clone, Copy, Debug)]
pub struct Chipper;

// What a wire between blocks carries: a place, with the rank of its flit and the wish.
#[derive(Clone, Copy)]
struct Lane {
    flit: Option<Flit>,
    rank: Option<Rank>,
    wish: Option<Port>,
}

impl Lane {
    fn new(flit: Option<Flit>, wish: Option<Port>, golden: usize) -> Lane
        ensures { result ≡ lane_of golden flit wish }
    {
        Lane {
            flit,
            rank: Rank::at(flit, golden),
            wish,
        }
    }
}

// A block, by where its two outputs lead.
#[derive(Clone, Copy)]
enum Block {
    // to N and S, and to E and W
    Entry,
    // to N, and to S
    NorthSouth,
    // to E, and to W
    EastWest,
}

impl Block {
    fn second_leads_to(self, port: Port) -> bool
        ensures { result ≡ by_second self port }
    {
        matches!(
            (self, port),
            (Block::Entry, Port::E | Port::W)
                | (Block::NorthSouth, Port::S)
                | (Block::EastWest, Port::W)
        )
    }

    // Whether a winner takes the second output.
    fn wants_second(self, wish: Option<Port>) -> bool
        ensures { result ≡ wants_second self wish }
    {
        wish.is_some_and(|port| self.second_leads_to(port))
    }

    // Whether the two inputs cross on their way to the outputs.
    fn crosses(self, first: Lane, second: Lane, draw: bool) -> bool
        ensures { result ≡ crossing self draw first second }
    {
        if gives_way(first.rank, second.rank, draw) {
            !self.wants_second(second.wish)
        } else {
            self.wants_second(first.wish)
        }
    }

    // The winner leaves by the output that leads to its wish, or by the first, and the loser by the other.
    #[tactic(auto, using(crate::proofs::Blocks::block_lawful))]
    fn pass(self, first: Lane, second: Lane, draw: bool) -> (Lane, Lane)
        ensures value { result ≡ passed self draw first second }
        ensures law { BlockLaw self draw first second result }
    {
        if self.crosses(first, second, draw) {
            (second, first)
        } else {
            (first, second)
        }
    }
}

impl Switch for Chipper {
    ghost turn = { λ _. chipper_turn };

    ghost lawful = { λ x.
        record {
          leads = λ h apart s f G low. chipper_leads h s f (lowest_best h apart s f G low);
          steady = chipper_steady;
        } };

    fn route(
        &self,
        places: [Option<Flit>; 4],
        wishes: [Option<Port>; 4],
        golden: usize,
        draws: [bool; 4],
    ) -> [Option<Flit>; 4]
        ensures value { result ≡ turned (chipper_turn (handed places wishes golden draws)) places }
        ensures blocks { ChipperLaw (handed places wishes golden draws) result }
    {
        let [n, e, s, w] = places;
        let [n_wish, e_wish, s_wish, w_wish] = wishes;
        let [draw_1, draw_2, draw_3, draw_4] = draws;
        let n = Lane::new(n, n_wish, golden);
        let e = Lane::new(e, e_wish, golden);
        let s = Lane::new(s, s_wish, golden);
        let w = Lane::new(w, w_wish, golden);
        let (n, e) = Block::Entry.pass(n, e, draw_1);
        let (s, w) = Block::Entry.pass(s, w, draw_2);
        let (n, s) = Block::NorthSouth.pass(n, s, draw_3);
        let (e, w) = Block::EastWest.pass(e, w, draw_4);
        [n.flit, e.flit, s.flit, w.flit]
    }
}

#[cfg(test)]
mod tests {
    use super::Chipper;
    use crate::cases::{Case, GOLDEN, flit};
    use fabric::parts::Port;

    #[test]
    fn table(rt: HostRuntime) {
        let [a, b] = [flit(1, 0, 0, 0), flit(2, 0, 0, 0)];
        let [c, d] = [flit(3, 0, 0, 0), flit(4, 0, 0, 0)];
        let [low, high, twin] = [
            flit(GOLDEN, 0, 0, 0),
            flit(GOLDEN, 1, 0, 0),
            flit(GOLDEN, 1, 0, 7),
        ];
        let [n, e, s, w] = [Some(Port::N), Some(Port::E), Some(Port::S), Some(Port::W)];
        let cases = [
            // four ordinary flits: the first inputs win, then the second, then by block
            Case {
                places: [a, b, c, d],
                wishes: [n, n, n, n],
                draws: [false; 4],
                out: [a, b, c, d],
            },
            Case {
                places: [a, b, c, d],
                wishes: [n, n, n, n],
                draws: [true; 4],
                out: [d, c, b, a],
            },
            Case {
                places: [a, b, c, d],
                wishes: [w, e, s, n],
                draws: [false, true, false, true],
                out: [b, c, d, a],
            },
            // the lower golden number, and golden before ordinary
            Case {
                places: [high, low, a, None],
                wishes: [e, e, e, None],
                draws: [false; 4],
                out: [high, low, None, a],
            },
            // two golden flits of one number, a wish at an empty place, a flit without a wish
            Case {
                places: [high, twin, None, a],
                wishes: [w, w, n, None],
                draws: [true; 4],
                out: [twin, None, a, high],
            },
        ];
        for case in cases {
            assert_eq!(rt; case.routed_by(&Chipper), case.out);
        }
    }
}
