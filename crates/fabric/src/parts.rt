// Ports, slots, cables and flits.
ghost use Rattle.std.specs.Prelude.{◌≡◌, ◌<◌, Some, ◌%◌, ◌^◌};
ghost use Rattle.fabric.specs.Ports.{place_of, letter, slot_number};

use std::fmt;

// The nodes of the largest layout.
pub const NODES: usize = 64;

// The ports of a node.
pub const PORTS: usize = 4;

// The slots of the largest layout.
pub const SLOTS: usize = NODES * PORTS;

// The words of the longest packet.
pub const WORDS: usize = 4;

// A side of a node, by which flits arrive and leave. The order N, E, S, W is slot order: the four places of a node are numbered by it, from 0.
#[derive(Clone, Copy, PartialEq, Eq, Debug, Default)]
pub enum Port {
    #[default]
    N,
    E,
    S,
    W,
}

impl Port {
    // All ports, in slot order.
    pub const ALL: [Port; PORTS] = [Port::N, Port::E, Port::S, Port::W];

    // All ports, in the order in which they are tried for one that serves.
    pub const TRIED: [Port; PORTS] = [Port::E, Port::W, Port::N, Port::S];

    // The port's place among four, in slot order.
    pub fn index(self) -> usize
        ensures { result ≡ place_of self }
    {
        self as usize
    }
}

impl fmt::Display for Port {
    ghost output = { λ p. Some (letter p) };

    fn fmt<W: fmt::Write>(&self, f: &mut fmt::Formatter<W>) -> fmt::Result {
        match *self {
            Port::N => f.write_str("N"),
            Port::E => f.write_str("E"),
            Port::S => f.write_str("S"),
            Port::W => f.write_str("W"),
        }
    }
}

// Names the place behind a port of a node in which an arriving flit stands (in the field: an input register).
#[derive(Clone, Copy, PartialEq, Eq, Debug, Default)]
pub struct Slot {
    pub node: usize,
    pub port: Port,
}

impl Slot {
    // The slot's number among those of all nodes, four of each in slot order. It wraps round far beyond the nodes of any layout.
    pub fn number(self) -> usize
        ensures exact { result ≡ slot_number self % 2 ^ 64 }
        ensures here { self.node < 64 → (result ≡ slot_number self) × (result < 256) }
    {
        self.node
            .wrapping_mul(PORTS)
            .wrapping_add(self.port.index())
    }
}

// A cable joins two ports, of one node or of two.
#[derive(Clone, Copy, PartialEq, Eq, Debug, Default)]
pub struct Cable {
    pub one: Slot,
    pub other: Slot,
}

// One word of a packet under way.
#[derive(Clone, Copy, PartialEq, Eq, Debug)]
pub struct Flit {
    // the packet's ticket (in the field: its transaction identifier): while a packet is under way no other bears its number
    pub ticket: u16,
    // the word's place in its packet, from 0
    pub number: u8,
    pub destination: u8,
    pub word: u32,
    // the cycle in which the flit was injected
    pub entered: u32,
}

#[cfg(test)]
mod tests {
    use super::*;

    #[test]
    fn all_in_slot_order(rt: HostRuntime) {
        for (k, port) in Port::ALL.iter().enumerate() {
            assert_eq!(rt; port.index(), k);
        }
    }
}
