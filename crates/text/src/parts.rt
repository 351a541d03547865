// What the lines of a run sheet say.
use fabric::parts::WORDS;

// The cables that a sheet has at most, and the packets.
pub const MOST_CABLES: usize = 128;

pub const MOST_PACKETS: usize = 256;

// The layout's line: a mesh of so many columns and rows, or so many nodes joined by cables.
#[derive(Clone, Copy, PartialEq, Eq, Debug)]
pub enum Shape {
    Mesh { width: u32, height: u32 },
    Cabled { nodes: u32 },
}

// The switch's line: the kind of switch that every node has.
#[derive(Clone, Copy, PartialEq, Eq, Debug, Default)]
pub enum SwitchKind {
    #[default]
    Chipper,
    Bless,
}

// The run's line: the settings of the network, and the cycles to carry out.
#[derive(Clone, Copy, PartialEq, Eq, Debug, Default)]
pub struct Run {
    // the tickets of each node
    pub tickets: u32,
    // the words that a packet has at most
    pub words: u32,
    // the cycles for which a ticket is golden
    pub epoch: u32,
    pub seed: u32,
    pub cycles: u32,
}

// A planned packet: when it is offered and by whom, and its words, the first `count` of four.
// The words are no `Batch` (a list of fixed capacity), so that a test can write a packet out.
#[derive(Clone, Copy, PartialEq, Eq, Debug, Default)]
pub struct Packet {
    pub cycle: u32,
    pub node: u32,
    pub own: u32,
    pub destination: u32,
    pub count: u32,
    pub words: [u32; WORDS],
}
