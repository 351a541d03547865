// Complete packets are collected.
ghost use Rattle.std.specs.Prelude.{◌≡◌, ◌*◌, ◌<◌, Ok};
ghost use Rattle.calls.specs.Networks.{fabric_of, SameParts};
ghost use Rattle.writer.specs.Listings.{SameLender};
ghost use Rattle.runner.specs.Progress.{Going, Tried, Collected};

use super::Session;
use fabric::layout::Layout;
use fabric::parts::WORDS;
use fabric::refusal::Refusal;
use switch::switch::Switch;
use writer::Writer;

impl<L: Layout, S: Switch> Session<L, S> {
    // A ticket that is complete is collected at its packet's destination, and has its line.
    pub(crate) fn collect(
        &mut self,
        cycle: u32,
        ticket: usize,
        writer: &mut Writer,
    ) -> Result<(), Refusal>
        requires going { Going (fabric_of L.plan S.turn self.old.network) self.old writer.old }
        requires numbers { (cycle < 65536) × (ticket < self.old.nodes * self.old.tickets) }
        ensures tried { (result ≡ Ok tt) × (Tried (fabric_of L.plan S.turn self.old.network) cycle ticket self.old writer.old self.new writer.new) }
        ensures parts { SameParts self.old.network self.new.network }
        ensures lender { SameLender writer.old writer.new }
    {
        let Some(receiver) = self.aims[ticket] else {
            return Ok(());
        };
        let mut words = [0; WORDS];
        let sender = ticket / self.tickets;
        let own = ticket % self.tickets;
        let Ok(count) = self.network.collect(receiver, sender, own, &mut words) else {
            // it is not complete yet
            return Ok(());
        };
        self.aims[ticket] = None;
        writer.done(cycle, ticket as u32, &words[..count])
    }

    // In rising order.
    pub(crate) fn collect_all(&mut self, cycle: u32, writer: &mut Writer) -> Result<(), Refusal>
        requires going { Going (fabric_of L.plan S.turn self.old.network) self.old writer.old }
        requires numbers { cycle < 65536 }
        ensures collected { (result ≡ Ok tt) × (Collected (fabric_of L.plan S.turn self.old.network) cycle (self.old.nodes * self.old.tickets) self.old writer.old self.new writer.new) }
        ensures parts { SameParts self.old.network self.new.network }
        ensures lender { SameLender writer.old writer.new }
    {
        for ticket in 0..self.nodes * self.tickets {
            self.collect(cycle, ticket, writer)?;
        }
        Ok(())
    }
}
