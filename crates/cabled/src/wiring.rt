// Which ports the cables join.
ghost use Rattle.std.specs.Prelude.{◌≡◌, ℕ, None, ◌<◌, Ok, Err, length, replicate, Decides};
ghost use Rattle.cabled.specs.Cables.{Fair};
ghost use Rattle.cabled.specs.Tables.{far_at, Free, Fits, plugged, Paired, Plugged, NamesBad};

use fabric::parts::{Cable, SLOTS, Slot};
use fabric::refusal::Refusal;

// So many nodes, and for each port the other end of its cable, if there is one.
#[derive(Clone, Copy)]
pub(crate) struct Wiring {
    pub(crate) nodes: usize,
    ends: [Option<Slot>; SLOTS],
    ghost fair: { Fair nodes },
    ghost paired: { Paired nodes ends },
}

impl Wiring {
    // Nodes without cables.
    pub(crate) fn bare(nodes: usize) -> Wiring
        requires { Fair nodes }
        ensures nodes { result.nodes ≡ nodes }
        ensures ends { result.ends ≡ replicate 256 None }
    {
        Wiring {
            nodes,
            ends: [None; SLOTS],
        }
    }

    // Nodes with all the cables, unless one does not fit.
    pub(crate) fn new(nodes: usize, cables: &[Cable]) -> Result<Wiring, Refusal>
        requires { Fair nodes }
        ensures { elim result [ Ok w ↦ Plugged nodes (length cables.now) cables.now w.nodes w.ends | Err e ↦ NamesBad nodes cables.now e ] }
    {
        let mut wiring = Wiring::bare(nodes);
        for (i, &cable) in cables.iter().enumerate() {
            if !wiring.can_plug(cable) {
                return Err(Refusal::Cable(i));
            }
            wiring.plug(cable);
        }
        Ok(wiring)
    }

    // The slot to which a port leads: the other end of its cable, or its own.
    pub(crate) fn far(&self, slot: Slot) -> Slot
        requires { slot.node < self.now.nodes }
        ensures led { result ≡ far_at self.now.ends slot }
        ensures inside { result.node < self.now.nodes }
    {
        self.ends[slot.number()].unwrap_or(slot)
    }

    // Whether the node exists and no cable is in the port.
    fn is_free(&self, slot: Slot) -> bool
        ensures { Decides result (Free self.now.nodes self.now.ends slot) }
    {
        slot.node < self.nodes && self.ends[slot.number()].is_none()
    }

    // Whether the cable has two ends, both at free ports.
    fn can_plug(&self, cable: Cable) -> bool
        ensures { Decides result (Fits self.now.nodes self.now.ends cable) }
    {
        cable.one != cable.other && self.is_free(cable.one) && self.is_free(cable.other)
    }

    // Puts the cable in.
    fn plug(&mut self, cable: Cable)
        requires { Fits self.old.nodes self.old.ends cable }
        ensures nodes { self.new.nodes ≡ self.old.nodes }
        ensures ends { self.new.ends ≡ plugged self.old.ends cable }
    {
        self.ends[cable.one.number()] = Some(cable.other);
        self.ends[cable.other.number()] = Some(cable.one);
    }
}
