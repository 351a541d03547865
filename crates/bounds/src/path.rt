// The way of a lone flit.
ghost use Rattle.std.specs.Prelude.{◌<◌, IfOk};
ghost use Rattle.bounds.specs.Ways.{Way, Farthest, FarthestFrom};

use fabric::layout::Layout;
use fabric::parts::Port;
use std::alloc::{AllocError, Global};

// A flit leaves this node by this port. It is no slot, though of the same fields: in a slot is what arrived by the port.
#[derive(Clone, Copy, PartialEq, Eq, Debug)]
pub struct Hop {
    pub node: usize,
    pub port: Port,
}

// The hops of a flit that no other flit meets.
pub fn path<L: Layout>(
    layout: &L,
    from: usize,
    to: usize,
    heap: Global,
) -> Result<Vec<Hop>, AllocError>
    ensures { IfOk result (λ v. Way (L.plan layout.now) from to v.items) }
{
    let mut hops = Vec::new(heap);
    let mut node = from;
    while let Some(port) = layout.wish(node, to) {
        hops.push(Hop { node, port })?;
        node = layout.far_end(node, port).node;
    }
    Ok(hops)
}

// Of the nodes farthest from this one, the first.
fn farthest_from<L: Layout>(layout: &L, from: usize) -> usize
    ensures { FarthestFrom (L.plan layout.now) from result }
{
    let mut farthest = 0;
    for to in 0..layout.nodes() {
        if layout.distance(from, to) > layout.distance(from, farthest) {
            farthest = to;
        }
    }
    farthest
}

// Of the pairs of nodes farthest apart, the first.
pub fn farthest<L: Layout>(layout: &L) -> (usize, usize)
    ensures { Farthest (L.plan layout.now) result.0 result.1 }
{
    let mut pair = (0, 0);
    for from in 0..layout.nodes() {
        let to = farthest_from(layout, from);
        if layout.distance(from, to) > layout.distance(pair.0, pair.1) {
            pair = (from, to);
        }
    }
    pair
}

#[cfg(test)]
mod tests {
    use super::*;
    use fabric::mesh::Mesh;
    use std::test::Fail;

    fn hop(node: usize, port: Port) -> Hop {
        Hop { node, port }
    }

    #[test]
    fn columns_first(rt: HostRuntime) -> Result<(), Fail> {
        let mesh = Mesh::new(3, 2)?;
        assert_eq!(rt; farthest(&mesh), (0, 5));
        let hops = path(&mesh, 0, 5, rt.alloc())?;
        let (one, two, three) = (hop(0, Port::E), hop(1, Port::E), hop(2, Port::S));
        assert!(rt; hops.as_slice() == [one, two, three].as_slice());
        Ok(())
    }
}
