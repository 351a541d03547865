// A cycle is carried out.
ghost use Rattle.std.specs.Prelude.{◌≡◌, Ok};
ghost use Rattle.calls.specs.Networks.{fabric_of, SameParts};
ghost use Rattle.writer.specs.Listings.{SameLender};
ghost use Rattle.runner.specs.Progress.{Early, Cycled};

use super::Session;
use fabric::layout::Layout;
use fabric::refusal::Refusal;
use line::Line;
use network::event::Event;
use switch::switch::Switch;
use writer::Writer;

// Two for each node.
const EVENTS: usize = 128;

impl<L: Layout, S: Switch> Session<L, S> {
    // Each event has its line.
    pub(crate) fn cycle(&mut self, writer: &mut Writer) -> Result<(), Refusal>
        requires { Early (fabric_of L.plan S.turn self.old.network) self.old writer.old }
        ensures cycled { (result ≡ Ok tt) × (Cycled (fabric_of L.plan S.turn self.old.network) self.old writer.old self.new writer.new) }
        ensures parts { SameParts self.old.network self.new.network }
        ensures lender { SameLender writer.old writer.new }
    {
        let mut events = [Event::default(); EVENTS];
        let mut line = Line::new(&mut events);
        self.network.cycle(&mut line)?;
        self.tally.tell(&mut line, writer)
    }
}
