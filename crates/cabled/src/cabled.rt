// Nodes joined by cables.
ghost use Rattle.std.specs.Prelude.{◌≡◌, ◌<◌, []};
ghost use Rattle.fabric.specs.Refusals.{shown};
ghost use Rattle.cabled.specs.Cables.{Means, lone, Cabling};
ghost use Rattle.cabled.specs.Tables.{leads, Within, Nearing};

use super::rounds::Spans;
use super::wiring::Wiring;
use fabric::layout::Layout;
use fabric::parts::{Cable, NODES, Port, Slot};
use fabric::refusal::Refusal;

// The layout that a list of cables makes.
#[derive(Clone, Copy)]
pub struct Cabled {
    wiring: Wiring,
    spans: Spans,
    ghost within: { Within wiring.nodes spans.distances spans.reach },
    ghost nearing: { Nearing wiring.nodes wiring.ends spans.distances },
}

impl Cabled {
    ghost use Rattle.cabled.specs.Plans.{plan_of};

    // One node without cables.
    pub fn new() -> Cabled
        ensures plan { plan_of result ≡ lone }
        ensures meaning { Means 1 [] (plan_of result) }
    {
        Cabled {
            wiring: Wiring::bare(1),
            spans: Spans {
                distances: [[0; NODES]; NODES],
                reach: 0,
            },
        }
    }

    // Replaces the layout wholly, or not at all.
    pub fn cable(&mut self, nodes: usize, cables: &[Cable]) -> Result<(), Refusal>
        ensures { Cabling plan_of nodes cables.now self.old self.new (shown result) }
    {
        if nodes == 0 || nodes > NODES {
            return Err(Refusal::Nodes);
        }
        let wiring = Wiring::new(nodes, cables)?;
        let spans = wiring.measure()?;
        *self = Cabled { wiring, spans };
        Ok(())
    }

    // Whether the port leads one nearer.
    fn leads(&self, from: usize, to: usize, port: Port) -> bool
        requires { (from < self.now.wiring.nodes) × (to < self.now.wiring.nodes) }
        ensures { result ≡ leads self.now.wiring.ends self.now.spans.distances from to port }
    {
        let next = self.wiring.far(Slot { node: from, port }).node;
        self.spans.distances[to][next] + 1 == self.spans.distances[to][from]
    }
}

impl Layout for Cabled {
    ghost use Rattle.cabled.specs.Plans.{plan_of, lawful_of};

    ghost plan = { plan_of };

    ghost lawful = { lawful_of };

    fn nodes(&self) -> usize {
        self.wiring.nodes
    }

    fn far_end(&self, node: usize, port: Port) -> Slot {
        let slot = Slot { node, port };
        if node < self.wiring.nodes {
            self.wiring.far(slot)
        } else {
            slot
        }
    }

    fn distance(&self, from: usize, to: usize) -> usize {
        if from < self.wiring.nodes && to < self.wiring.nodes {
            usize::from(self.spans.distances[to][from])
        } else {
            0
        }
    }

    fn wish(&self, from: usize, to: usize) -> Option<Port> {
        if from >= self.wiring.nodes || to >= self.wiring.nodes {
            return None;
        }
        Port::TRIED
            .iter()
            .copied()
            .find(|&port| self.leads(from, to, port))
    }

    fn reach(&self) -> usize {
        usize::from(self.spans.reach)
    }
}

#[cfg(test)]
mod tests {
    use super::*;
    use std::array;

    fn cable(a: usize, p: Port, b: usize, q: Port) -> Cable {
        Cable {
            one: Slot { node: a, port: p },
            other: Slot { node: b, port: q },
        }
    }

    // Each node's E to the next node's W, and the last node's to the first.
    fn around() -> [Cable; NODES] {
        array::from_fn(|node| cable(node, Port::E, (node + 1) % NODES, Port::W))
    }

    #[test]
    fn ring(rt: HostRuntime) {
        let mut layout = Cabled::new();
        assert_eq!(rt; layout.cable(NODES, &around()), Ok(()));
        assert_eq!(rt; layout.reach(), 32);
        assert_eq!(rt; layout.distance(60, 3), 7);
        assert_eq!(rt; layout.wish(0, 32), Some(Port::E));
        assert_eq!(rt; layout.wish(0, 33), Some(Port::W));
    }

    #[test]
    fn star(rt: HostRuntime) {
        let cables = [
            cable(0, Port::N, 1, Port::N),
            cable(0, Port::E, 2, Port::N),
            cable(0, Port::S, 3, Port::N),
            cable(0, Port::W, 4, Port::N),
        ];
        let mut layout = Cabled::new();
        assert_eq!(rt; layout.cable(5, &cables), Ok(()));
        assert_eq!(rt; layout.reach(), 2);
        assert_eq!(rt; layout.distance(1, 4), 2);
        assert_eq!(rt; layout.wish(0, 3), Some(Port::S));
    }

    // Two cables between the same nodes, and one between two ports of a node.
    #[test]
    fn doubled(rt: HostRuntime) {
        let cables = [
            cable(0, Port::N, 0, Port::S),
            cable(0, Port::W, 1, Port::W),
            cable(0, Port::E, 1, Port::S),
        ];
        let mut layout = Cabled::new();
        assert_eq!(rt; layout.cable(2, &cables), Ok(()));
        let south = Slot {
            node: 0,
            port: Port::S,
        };
        assert_eq!(rt; layout.far_end(0, Port::N), south);
        assert_eq!(rt; layout.wish(0, 1), Some(Port::E));
        assert_eq!(rt; layout.wish(1, 0), Some(Port::W));
    }

    #[test]
    fn refused(rt: HostRuntime) {
        let pair = [cable(0, Port::E, 1, Port::W)];
        let looped = [cable(0, Port::E, 1, Port::W), cable(1, Port::N, 1, Port::N)];
        let mut layout = Cabled::new();
        assert_eq!(rt; layout.cable(2, &pair), Ok(()));
        assert_eq!(rt; layout.cable(65, &looped), Err(Refusal::Nodes));
        assert_eq!(rt; layout.cable(3, &looped), Err(Refusal::Cable(1)));
        assert_eq!(rt; layout.cable(3, &pair), Err(Refusal::Unreached(2)));
        assert_eq!(rt; layout.nodes(), 2);
        assert_eq!(rt; layout.distance(0, 1), 1);
    }
}
