// A run sheet, as it was read.
use batch::Batch;
use fabric::parts::Cable;
use text::parts::{MOST_CABLES, MOST_PACKETS, Packet, Run, Shape, SwitchKind};

mod methods;

// A run sheet: a network, and the packets that are offered to it.
#[derive(Clone, Copy)]
pub struct Sheet {
    pub shape: Shape,
    pub kind: SwitchKind,
    pub run: Run,
    pub(crate) cables: Batch<Cable, MOST_CABLES>,
    pub(crate) packets: Batch<Packet, MOST_PACKETS>,
}
