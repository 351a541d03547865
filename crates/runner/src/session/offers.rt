// The packets that are due are offered.
ghost use Rattle.std.specs.Prelude.{◌≡◌, ◌+◌, Ok};
ghost use Rattle.calls.specs.Networks.{fabric_of, SameParts};
ghost use Rattle.writer.specs.Listings.{SameLender};
ghost use Rattle.runner.specs.Progress.{Going, Sendable, Offered, coming, Ready, Due, Left, SamePlaces};

use super::Session;
use crate::planned::Planned;
use fabric::layout::Layout;
use fabric::refusal::Refusal;
use switch::switch::Switch;
use text::parts::Packet;
use writer::Writer;

impl<L: Layout, S: Switch> Session<L, S> {
    // Of an accepted packet its destination is kept, until it is collected there. A refused one has its line.
    pub(crate) fn offer(&mut self, packet: Packet, writer: &mut Writer) -> Result<(), Refusal>
        requires { (Going (fabric_of L.plan S.turn self.old.network) self.old writer.old) × (Sendable packet) }
        ensures offered { (result ≡ Ok tt) × (Offered (fabric_of L.plan S.turn self.old.network) packet self.old writer.old self.new writer.new) }
        ensures parts { SameParts self.old.network self.new.network }
        ensures lender { SameLender writer.old writer.new }
    {
        let node = packet.node as usize;
        let own = packet.own as usize;
        let destination = packet.destination as usize;
        let count = packet.count as usize;
        match self
            .network
            .offer(node, own, destination, &packet.words[..count])
        {
            Ok(()) => {
                self.aims[node * self.tickets + own] = Some(destination);
                Ok(())
            }
            Err(refusal) => {
                let number = u32::from(refusal.number());
                writer.no(packet.cycle, number, packet.node, packet.own)
            }
        }
    }

    // Offers the packets that are due.
    pub(crate) fn offer_due(
        &mut self,
        cycle: u32,
        planned: &mut Planned,
        writer: &mut Writer,
    ) -> Result<(), Refusal>
        requires { Ready (fabric_of L.plan S.turn self.old.network) cycle (coming planned.old) self.old writer.old }
        ensures offered { (result ≡ Ok tt) × (Due (fabric_of L.plan S.turn self.old.network) cycle (coming planned.old) (coming planned.new) self.old writer.old self.new writer.new) }
        ensures left { Left (cycle + 1) (coming planned.new) }
        ensures parts { SameParts self.old.network self.new.network }
        ensures lender { (SameLender writer.old writer.new) × (SamePlaces planned.old planned.new) }
    {
        while let Some(packet) = planned.next_due(cycle) {
            self.offer(packet, writer)?;
        }
        Ok(())
    }
}
