// What a network keeps between two calls.
ghost use Rattle.calls.specs.Fits.{Fits};

use super::ticket::Ticket;
use batch::Batch;
use bounds::settings::{MOST_OWN, MOST_TICKETS, Settings};
use fabric::parts::{Flit, NODES, SLOTS};

mod methods;
mod work;

// The tables of the largest network. Nodes and tickets are plain numbers, as in a layout: a type of their own would have to be unwrapped at each index. So the steps on them ask for `node < 64`.
#[derive(Drop)]
pub(crate) struct Tables {
    pub settings: Settings,
    // so many cycles are carried out
    pub cycles: u32,
    // the draw register
    pub register: u16,
    // four of each node, in slot order
    pub slots: [Option<Flit>; SLOTS],
    // as many of each node as the settings say; a free one has no record
    pub tickets: [Option<Ticket>; MOST_TICKETS],
    // of each node those tickets that wait, in the order of their offers
    pub waits: [Batch<u16, MOST_OWN>; NODES],
    ghost fits: { Fits settings },
}
