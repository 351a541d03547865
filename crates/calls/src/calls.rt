// A network of a layout and a switch, and the calls that it answers.
ghost use Rattle.std.specs.Prelude.{◌≡◌, ◌+◌, ◌<◌, OnOk, OnErr};
ghost use Rattle.fabric.specs.Refusals.{shown};
ghost use Rattle.line.specs.Lines.{queue_of, SameLender};
ghost use Rattle.bounds.specs.SetUp.{set_up_verdict};
ghost use Rattle.bounds.specs.Lateness.{latest};
ghost use Rattle.network.specs.Runs.Call.{offer as offers, cycle as cycles, collect as collects, look as looks};
ghost use Rattle.network.specs.Runs.Outcome.{offering, cycling, collecting, looking};
ghost use Rattle.calls.specs.Follow.{Promised, first_settings, Begins, StaysInTime};
ghost use Rattle.calls.specs.Steps.{Unsent};
ghost use Rattle.calls.specs.Midway.{Sent, NodeWorks};
ghost use Rattle.calls.specs.Networks.{fabric_of, SameParts};

use super::steps::{are_empty, spread, wishes};
use super::tables::Tables;
use bounds::settings::Settings;
use fabric::layout::Layout;
use fabric::parts::{Flit, PORTS, Port, SLOTS, Slot};
use fabric::refusal::Refusal;
use line::Line;
use network::event::Event;
use switch::switch::Switch;

// Cycles are numbered below this.
const MOST_CYCLES: u32 = 1_073_741_823;

// Until set-up a network stands as if set up with these.
const FIRST: Settings = Settings {
    tickets: 1,
    words: 1,
    epoch: 4096,
    seed: 1,
};

#[derive(Drop)]
pub struct Network<L, S> {
    layout: L,
    switch: S,
    inner: Tables,
    // What arrives in a cycle. It is kept so that a cycle writes no more places than the layout has.
    arriving: [Option<Flit>; SLOTS],
}

impl<L: Layout, S: Switch> Network<L, S> {
    pub fn new(layout: L, switch: S) -> Network<L, S>
        ensures begins { Begins (fabric_of L.plan S.turn result) first_settings result.inner }
        ensures parts { (result.layout ≡ layout) × (result.switch ≡ switch) }
    {
        let inner = Tables::fresh(FIRST);
        Network {
            layout,
            switch,
            inner,
            arriving: [None; SLOTS],
        }
    }

    // No cycle is carried out then, all slots are empty and all tickets free.
    pub fn set_up(&mut self, settings: Settings) -> Result<(), Refusal>
        ensures exact { shown result ≡ set_up_verdict (L.plan self.old.layout) settings }
        ensures begins { OnOk result (Begins (fabric_of L.plan S.turn self.old) settings self.new.inner) }
        ensures unchanged { OnErr result (self.new ≡ self.old) }
        ensures parts { SameParts self.old self.new }
    {
        settings.judge(&self.layout)?;
        self.inner = Tables::fresh(settings);
        Ok(())
    }

    // Within so many cycles of being injected a flit is ejected, whatever traffic there is.
    pub fn limit(&self) -> usize
        ensures exact { result ≡ latest (L.plan self.now.layout) self.now.inner.settings }
        ensures promised { StaysInTime (fabric_of L.plan S.turn self.now) self.now.inner result }
    {
        // The number that `Limits` answers, which judges settings first: those of a network are judged already.
        let Settings { tickets, epoch, .. } = self.inner.settings;
        (self.layout.nodes() * tickets + 1) * epoch
    }

    // Hands a packet to a node for sending, under one of its own tickets, which are numbered from 0.
    pub fn offer(
        &mut self,
        node: usize,
        own: usize,
        destination: usize,
        words: &[u32],
    ) -> Result<(), Refusal>
        ensures promised { Promised (fabric_of L.plan S.turn self.old) self.old.inner self.new.inner (offers node own destination words.now) (offering (shown result)) }
        ensures unchanged { OnErr result (self.new ≡ self.old) }
        ensures parts { SameParts self.old self.new }
    {
        let nodes = self.layout.nodes();
        if node >= nodes || own >= self.inner.settings.tickets {
            return Err(Refusal::Missing);
        }
        if destination >= nodes || destination == node {
            return Err(Refusal::Destination);
        }
        if words.is_empty() || words.len() > self.inner.settings.words {
            return Err(Refusal::Words);
        }
        let ticket = node * self.inner.settings.tickets + own;
        let record = self.inner.tickets[ticket];
        if record.is_some() {
            return Err(Refusal::NotFree);
        }
        self.inner.accept(node, ticket, destination, words);
        Ok(())
    }

    // Writes the words of a complete packet over the front of a memory, and answers how many they are.
    pub fn collect(
        &mut self,
        receiver: usize,
        sender: usize,
        own: usize,
        memory: &mut [u32],
    ) -> Result<usize, Refusal>
        ensures promised { Promised (fabric_of L.plan S.turn self.old) self.old.inner self.new.inner (collects receiver sender own memory.old) (collecting (shown result) memory.new) }
        ensures unchanged { OnErr result (self.new ≡ self.old) }
        ensures parts { SameParts self.old self.new }
    {
        let nodes = self.layout.nodes();
        if receiver >= nodes || sender >= nodes || own >= self.inner.settings.tickets {
            return Err(Refusal::Missing);
        }
        let ticket = sender * self.inner.settings.tickets + own;
        let packet = self
            .inner
            .arrived(ticket, receiver)
            .ok_or(Refusal::NotComplete)?;
        let size = usize::from(packet.size);
        if memory.len() < size {
            return Err(Refusal::Memory);
        }
        packet.write(memory);
        self.inner.free(ticket);
        Ok(size)
    }

    // The flit behind a port of a node, if one is there. The port is a number, since one that does not exist is refused.
    pub fn look(&self, node: usize, port: usize) -> Result<Option<Flit>, Refusal>
        ensures promised { Promised (fabric_of L.plan S.turn self.now) self.now.inner self.now.inner (looks node port) (looking (shown result)) }
    {
        if node >= self.layout.nodes() || port >= PORTS {
            return Err(Refusal::Missing);
        }
        let slot = Slot {
            node,
            port: Port::ALL[port],
        };
        Ok(self.inner.slots[slot.number()])
    }

    // The switch sends the flits in the places of a node on to the far ends of its ports.
    fn send(&mut self, node: usize, places: [Option<Flit>; 4], golden: usize, draws: [bool; 4])
        requires known { node < (L.plan self.old.layout).nodes }
        requires unsent { Unsent (L.plan self.old.layout) node self.old.arriving }
        ensures sent { Sent (fabric_of L.plan S.turn self.old) node places golden draws self.old.arriving self.new.arriving }
        ensures same { self.new.inner ≡ self.old.inner }
        ensures parts { SameParts self.old self.new }
    {
        // under a light load most nodes hold no flit
        if are_empty(places) {
            return;
        }
        let wishes = wishes(&self.layout, node, places);
        let leaving = self.switch.route(places, wishes, golden, draws);
        spread(&self.layout, node, leaving, &mut self.arriving);
    }

    // One node's work in a cycle. Answers how many flits it ejected.
    fn work(&mut self, node: usize, golden: usize, line: &mut Line<Event>) -> usize
        requires known { node < (L.plan self.old.layout).nodes }
        requires unsent { Unsent (L.plan self.old.layout) node self.old.arriving }
        ensures works { NodeWorks (fabric_of L.plan S.turn self.old) self.old.inner self.new.inner node golden self.old.arriving self.new.arriving (queue_of line.old) (queue_of line.new) result }
        ensures unsent { Unsent (L.plan self.old.layout) (node + 1) self.new.arriving }
        ensures parts { SameParts self.old self.new }
        ensures lender { SameLender line.old line.new }
    {
        let (left, off) = self.inner.take_off(node, golden, line);
        let places = self.inner.enter(node, left, line);
        let draws = self.inner.draw();
        self.send(node, places, golden, draws);
        off
    }

    // Carries out one cycle. Answers how many flits were ejected; the line tells of each flit ejected or injected.
    pub fn cycle(&mut self, line: &mut Line<Event>) -> Result<usize, Refusal>
        ensures promised { Promised (fabric_of L.plan S.turn self.old) self.old.inner self.new.inner (cycles (queue_of line.old)) (cycling (shown result) (queue_of line.new)) }
        ensures unchanged { OnErr result (self.new ≡ self.old) }
        ensures parts { SameParts self.old self.new }
        ensures lender { SameLender line.old line.new }
    {
        if self.inner.cycles >= MOST_CYCLES {
            return Err(Refusal::Cycles);
        }
        let nodes = self.layout.nodes();
        if line.free() < 2 * nodes {
            return Err(Refusal::Room);
        }
        let golden = self.inner.golden(nodes);
        let in_use = PORTS * nodes;
        self.arriving[..in_use].fill(None);
        let mut off = 0;
        for node in 0..nodes {
            off += self.work(node, golden, line);
        }
        self.inner.advance(&self.arriving, in_use);
        Ok(off)
    }
}
