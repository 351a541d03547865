// The run of a sheet.
use super::tally::Tally;
use bounds::settings::MOST_TICKETS;
use calls::Network;

mod collections;
mod cycles;
mod offers;
mod turns;

// A network under way, and what its listing needs beside it.
// Each step passes a refusal of the writer up by `?`, though its contract says that it answers `Ok`: the type can't say so.
#[derive(Drop)]
pub(crate) struct Session<L, S> {
    pub network: Network<L, S>,
    pub nodes: usize,
    // the tickets of each node
    pub tickets: usize,
    // where the packet of each ticket goes that is not free: a network does not show it
    pub aims: [Option<usize>; MOST_TICKETS],
    pub tally: Tally,
}
