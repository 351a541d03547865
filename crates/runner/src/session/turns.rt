// Cycle after cycle.
ghost use Rattle.std.specs.Prelude.{◌≡◌, ◌+◌, ◌<◌, Ok};
ghost use Rattle.calls.specs.Networks.{fabric_of, SameParts};
ghost use Rattle.writer.specs.Listings.{SameLender};
ghost use Rattle.runner.specs.Progress.{coming, Ready, Left, Turned, Begun, Played, SamePlaces};

use super::Session;
use crate::planned::Planned;
use fabric::layout::Layout;
use fabric::refusal::Refusal;
use switch::switch::Switch;
use writer::Writer;

impl<L: Layout, S: Switch> Session<L, S> {
    // One cycle of the run: packets due are offered, then the cycle is carried out, then complete packets are collected.
    pub(crate) fn turn(
        &mut self,
        cycle: u32,
        planned: &mut Planned,
        writer: &mut Writer,
    ) -> Result<(), Refusal>
        requires ready { Ready (fabric_of L.plan S.turn self.old.network) cycle (coming planned.old) self.old writer.old }
        requires early { cycle < 65535 }
        ensures turned { (result ≡ Ok tt) × (Turned (fabric_of L.plan S.turn self.old.network) cycle (coming planned.old) (coming planned.new) self.old writer.old self.new writer.new) }
        ensures left { Left (cycle + 1) (coming planned.new) }
        ensures parts { SameParts self.old.network self.new.network }
        ensures lender { (SameLender writer.old writer.new) × (SamePlaces planned.old planned.new) }
    {
        self.offer_due(cycle, planned, writer)?;
        self.cycle(writer)?;
        self.collect_all(cycle, writer)
    }

    // The whole run, and its last line.
    pub(crate) fn play(
        &mut self,
        cycles: u32,
        planned: &mut Planned,
        writer: &mut Writer,
    ) -> Result<(), Refusal>
        requires { Begun (fabric_of L.plan S.turn self.old.network) cycles (coming planned.old) self.old writer.old }
        ensures played { (result ≡ Ok tt) × (Played (fabric_of L.plan S.turn self.old.network) cycles (coming planned.old) self.old writer.old writer.new) }
        ensures lender { (SameLender writer.old writer.new) × (SamePlaces planned.old planned.new) }
    {
        for cycle in 0..cycles {
            self.turn(cycle, planned, writer)?;
        }
        let tally = self.tally;
        writer.end(tally.entered, tally.off, tally.mean())
    }
}
