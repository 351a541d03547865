// Layouts: how nodes are joined (in the field: topologies).
ghost use Rattle.std.specs.Prelude.{◌≡◌};
ghost use Rattle.fabric.specs.Layouts.{Plan, Lawful};

use super::parts::{Port, Slot};

// A layout answers each question from its plan, which is what it means; it refuses nothing and changes nothing.
// Of a missing node it says distance 0, no wish, and as far end the place asked.
pub trait Layout {
    ghost plan: { Self → Plan };

    fn nodes(&self) -> usize
        ensures { result ≡ (plan self.now).nodes };

    // The far end of a port (in the field: the other end of its link): the slot in which a flit that leaves the node by it arrives.
    fn far_end(&self, node: usize, port: Port) -> Slot
        ensures { result ≡ (plan self.now).far node port };

    // How far one node is from another (in the field: the hop count): 0 from itself, and a wish leads one nearer.
    fn distance(&self, from: usize, to: usize) -> usize
        ensures { result ≡ (plan self.now).distance from to };

    // The port by which a flit at the first node wants to leave for the second (in the field: its productive port).
    fn wish(&self, from: usize, to: usize) -> Option<Port>
        ensures { result ≡ (plan self.now).wish from to };

    // A bound on every distance (in the field: the diameter).
    fn reach(&self) -> usize
        ensures { result ≡ (plan self.now).reach };

    ghost lawful: { (x : Self) → Lawful (plan x) };
}
