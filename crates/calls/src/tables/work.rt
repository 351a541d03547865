// What a node ejects and injects.
ghost use Rattle.std.specs.Prelude.{◌<◌};
ghost use Rattle.line.specs.Lines.{queue_of, SameLender};
ghost use Rattle.calls.specs.Midway.{TakesOff, Enters};

use super::super::steps::{are_empty, best, gap, with};
use super::super::telling::tell;
use super::Tables;
use fabric::parts::Flit;
use line::Line;
use network::event::{Event, Kind};

impl Tables {
    // Ejects the flit whose turn it is, if one is due here. Answers the other places, and how many were ejected.
    pub(crate) fn take_off(
        &mut self,
        node: usize,
        golden: usize,
        line: &mut Line<Event>,
    ) -> ([Option<Flit>; 4], usize)
        requires { node < 64 }
        ensures takes { TakesOff self.old self.new node golden (queue_of line.old) (queue_of line.new) result.0 result.1 }
        ensures lender { SameLender line.old line.new }
    {
        let places = self.places(node);
        // under a light load most nodes hold no flit
        if are_empty(places) {
            return (places, 0);
        }
        match best(golden, node, places) {
            None => (places, 0),
            Some((port, flit)) => {
                self.take_in(flit);
                tell(line, self.cycles, Kind::Out, flit, node);
                (with(places, port, None), 1)
            }
        }
    }

    // Injects the next flit that waits here, if a place is empty.
    pub(crate) fn enter(
        &mut self,
        node: usize,
        places: [Option<Flit>; 4],
        line: &mut Line<Event>,
    ) -> [Option<Flit>; 4]
        requires { node < 64 }
        ensures enters { Enters self.old self.new node (queue_of line.old) (queue_of line.new) places result }
        ensures lender { SameLender line.old line.new }
    {
        let Some(port) = gap(places) else {
            return places;
        };
        let Some(flit) = self.let_in(node) else {
            return places;
        };
        tell(line, self.cycles, Kind::In, flit, node);
        with(places, port, Some(flit))
    }
}
