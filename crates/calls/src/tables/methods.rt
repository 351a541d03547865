// What the calls do to the tables. Bounds are tested by `if`, since of what `get_mut` answers a proof knows no element.
// A batch has a ghost field, so it is copied out and put back: no proof is found for a `&mut` to it.
ghost use Rattle.std.specs.Prelude.{◌≡◌, ◌*◌, ◌<◌, ◌≤◌, length, None, slice_index_or};
ghost use Rattle.clock.specs.Epochs.{golden_ticket};
ghost use Rattle.network.specs.Cycle.{in_slot_order};
ghost use Rattle.calls.specs.Fits.{Fits};
ghost use Rattle.calls.specs.Records.{arrived as has_arrived, Starts, Accepts, Frees, TakesIn, LetsIn, Draws, Advances};
ghost use Rattle.calls.specs.Follow.{slot_of};

use super::super::ticket::Ticket;
use super::Tables;
use batch::Batch;
use bounds::settings::{MOST_TICKETS, Settings};
use clock::draw::shift;
use clock::epoch::golden;
use fabric::parts::{Flit, NODES, Port, SLOTS, Slot};
use std::array;

impl Tables {
    // The tables of a network just set up.
    pub(crate) fn fresh(settings: Settings) -> Tables
        requires { Fits settings }
        ensures { Starts result settings }
    {
        Tables {
            settings,
            cycles: 0,
            register: settings.seed as u16,
            slots: [None; SLOTS],
            tickets: [None; MOST_TICKETS],
            waits: [Batch::new(0); NODES],
        }
    }

    // Takes over a packet under a free ticket of a node, where it then waits.
    pub(crate) fn accept(&mut self, node: usize, ticket: usize, destination: usize, words: &[u32])
        requires { (node < 64) × ((ticket < 512) × ((destination < 64) × (length words.now ≤ 4))) }
        ensures { Accepts self.old self.new node ticket destination words.now }
    {
        self.tickets[ticket] = Some(Ticket::new(destination as u8, words));
        let mut waiting = self.waits[node];
        // a node with a free ticket has room for one more that waits
        let _ = waiting.push(ticket as u16);
        self.waits[node] = waiting;
    }

    // The packet under a ticket, if it is complete and goes to this node.
    pub(crate) fn arrived(&self, ticket: usize, receiver: usize) -> Option<Ticket>
        requires { ticket < 512 }
        ensures { result ≡ has_arrived (slice_index_or self.now.tickets ticket None) receiver }
    {
        self.tickets[ticket].filter(|packet| packet.complete()
            && usize::from(packet.destination) == receiver)
    }

    // Frees a ticket whose packet is collected.
    pub(crate) fn free(&mut self, ticket: usize)
        requires { ticket < 512 }
        ensures { Frees self.old self.new ticket }
    {
        self.tickets[ticket] = None;
    }

    // Writes the word of an ejected flit into its ticket's record.
    pub(crate) fn take_in(&mut self, flit: Flit)
        ensures { TakesIn self.old self.new flit }
    {
        let t = usize::from(flit.ticket);
        if t < MOST_TICKETS
            && let Some(packet) = &mut self.tickets[t]
        {
            packet.receive(flit.number, flit.word);
        }
    }

    // The next flit of the first ticket that waits at a node. After its last flit the packet waits no more.
    pub(crate) fn let_in(&mut self, node: usize) -> Option<Flit>
        requires { node < 64 }
        ensures { LetsIn self.old self.new node result }
    {
        let ticket = self.waits[node].first()?;
        let t = usize::from(ticket);
        if t >= MOST_TICKETS {
            return None;
        }
        let cycle = self.cycles;
        // not `as_mut`: the borrow checker does not cover that its `&mut` is kept
        let Some(packet) = &mut self.tickets[t] else {
            return None;
        };
        let flit = packet.send(ticket, cycle);
        if packet.sent == packet.size {
            let mut waiting = self.waits[node];
            waiting.remove_first();
            self.waits[node] = waiting;
        }
        flit
    }

    // Shifts the draw register, and answers the four draw bits of a node.
    pub(crate) fn draw(&mut self) -> [bool; 4]
        ensures { Draws self.old self.new result }
    {
        let r = shift(self.register);
        self.register = r;
        array::from_fn(|k| r >> k & 1 == 1)
    }

    // The four places of a node.
    pub(crate) fn places(&self, node: usize) -> [Option<Flit>; 4]
        requires { node < 64 }
        ensures { result ≡ in_slot_order (slot_of self.now.slots node) }
    {
        Port::ALL.map(|port| self.slots[Slot { node, port }.number()])
    }

    // The golden ticket of this cycle.
    pub(crate) fn golden(&self, nodes: usize) -> usize
        requires { (0 < nodes) × (nodes ≤ 64) }
        ensures { result ≡ golden_ticket (nodes * self.now.settings.tickets) self.now.settings.epoch self.now.cycles }
    {
        golden(
            nodes * self.settings.tickets,
            self.settings.epoch,
            self.cycles as usize,
        )
    }

    // The end of a cycle: what arrived stands in the slots, of which the first ones are in use.
    pub(crate) fn advance(&mut self, arriving: &[Option<Flit>; SLOTS], in_use: usize)
        requires { (self.old.cycles < 1073741823) × (in_use ≤ 256) }
        ensures { Advances self.old self.new in_use arriving.now }
    {
        // one by one: beside a ghost field no slice of a field can be lent
        for (k, flit) in arriving[..in_use].iter().enumerate() {
            self.slots[k] = *flit;
        }
        self.cycles += 1;
    }
}
