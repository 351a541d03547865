// What a cycle tells in the caller's line.
ghost use Rattle.std.specs.Prelude.{◌≡◌, ◌<◌, length};
ghost use Rattle.line.specs.Queues.{put};
ghost use Rattle.line.specs.Lines.{queue_of, SameLender};
ghost use Rattle.network.specs.Runs.{event_of};

use fabric::parts::Flit;
use line::Line;
use network::event::{Event, Kind};

// Tells of a flit, at a node. A cycle begins only with places enough, so that the line is not full here.
pub(crate) fn tell(line: &mut Line<Event>, cycle: u32, kind: Kind, flit: Flit, node: usize)
    requires { node < 64 }
    ensures put { (queue_of line.old).held < length (queue_of line.old).memory → queue_of line.new ≡ put (queue_of line.old) (event_of cycle kind flit node) }
    ensures lender { SameLender line.old line.new }
{
    let _ = line.put(Event {
        cycle,
        kind,
        ticket: flit.ticket,
        number: flit.number,
        node: node as u8,
        entered: flit.entered,
    });
}
