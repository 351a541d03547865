// The packets of a sheet that are still to be offered.
ghost use Rattle.std.specs.Prelude.{◌≡◌, ◌≤◌, ◌∷◌, length, MatchOption, MatchResult};
ghost use Rattle.runner.specs.Progress.{coming, NoneDue, SamePlaces};

use fabric::refusal::Refusal;
use line::Line;
use text::parts::Packet;

// The next one, and those behind it.
#[derive(Drop)]
pub(crate) struct Planned<'a> {
    next: Option<Packet>,
    rest: Line<'a, Packet>,
}

impl<'a> Planned<'a> {
    // The packets wait in the order of the sheet.
    pub(crate) fn new(packets: &[Packet], places: &'a mut [Packet]) -> Result<Planned<'a>, Refusal>
        requires { length packets.now ≤ length places.old }
        ensures { MatchResult result (λ p. coming p ≡ packets.now) (λ _. ⊥) }
    {
        let mut rest = Line::new(places);
        for packet in packets {
            rest.put(*packet)?;
        }
        let next = rest.take();
        Ok(Planned { next, rest })
    }

    // Takes out the next one if it is due.
    pub(crate) fn next_due(&mut self, cycle: u32) -> Option<Packet>
        ensures due { MatchOption result ((coming self.new ≡ coming self.old) × NoneDue cycle (coming self.old)) (λ p. (p.cycle ≡ cycle) × (coming self.old ≡ p ∷ coming self.new)) }
        ensures lender { SamePlaces self.old self.new }
    {
        let packet = self.next.filter(|packet| packet.cycle == cycle)?;
        self.next = self.rest.take();
        Some(packet)
    }
}
