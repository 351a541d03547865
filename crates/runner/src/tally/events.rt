// The events of a cycle, counted and written.
ghost use Rattle.std.specs.Prelude.{◌≡◌, ◌+◌, ◌-◌, ◌*◌, ◌≤◌, [], ◌∷◌, Ok};
ghost use Rattle.line.specs.Lines.{holds, SameLender as SameLine};
ghost use Rattle.writer.specs.Listings.{SameLender};
ghost use Rattle.network.specs.Kinds.{event_word};
ghost use Rattle.runner.specs.Listing.{enters, leaves, mean_of};
ghost use Rattle.runner.specs.Tallies.{Counts, Tellable, Told};

use super::Tally;
use fabric::refusal::Refusal;
use line::Line;
use network::event::{Event, Kind};
use writer::Writer;

// Beside Kind's Display: the words of a listing are fixed byte strings.
fn word(kind: Kind) -> &'static [u8]
    ensures { result.now ≡ event_word kind }
{
    match kind {
        Kind::In => b"in",
        Kind::Out => b"out",
    }
}

impl Tally {
    fn count(&mut self, event: Event)
        requires since { event.entered ≤ event.cycle }
        requires few { (self.old.entered ≤ 1024) × ((self.old.off ≤ 1024) × (self.old.waited + event.cycle ≤ 100000000)) }
        ensures { Counts self.old (enters event.kind) (leaves event.kind) (leaves event.kind * (event.cycle - event.entered)) self.new }
    {
        match event.kind {
            Kind::In => self.entered += 1,
            Kind::Out => {
                self.off += 1;
                self.waited += event.cycle - event.entered;
            }
        }
    }

    fn event(&mut self, event: Event, writer: &mut Writer) -> Result<(), Refusal>
        requires tellable { Tellable self.old writer.old (event ∷ []) }
        ensures told { (result ≡ Ok tt) × (Told self.old writer.old (event ∷ []) self.new writer.new) }
        ensures lender { SameLender writer.old writer.new }
    {
        self.count(event);
        writer.event(
            event.cycle,
            word(event.kind),
            u32::from(event.ticket),
            u32::from(event.number),
            u32::from(event.node),
        )
    }

    // Takes the events out of a line, counts them and writes their lines.
    pub(crate) fn tell(
        &mut self,
        line: &mut Line<Event>,
        writer: &mut Writer,
    ) -> Result<(), Refusal>
        requires { Tellable self.old writer.old (holds line.old) }
        ensures told { (result ≡ Ok tt) × (Told self.old writer.old (holds line.old) self.new writer.new) }
        ensures lender { (SameLender writer.old writer.new) × (SameLine line.old line.new) }
    {
        while let Some(event) = line.take() {
            self.event(event, writer)?;
        }
        Ok(())
    }

    // The mean of the cycles for which a flit was under way, in tenths, cut off.
    pub(crate) fn mean(&self) -> Option<u32>
        requires { self.now.waited ≤ 100000000 }
        ensures { result ≡ mean_of self.now.waited self.now.off }
    {
        (10 * self.waited).checked_div(self.off)
    }
}
