// A loop of cycles.
ghost use Rattle.std.specs.Prelude.{List};
ghost use Rattle.line.specs.Lines.{queue_of, SameLender};
ghost use Rattle.calls.specs.Networks.{fabric_of, SameParts};
ghost use Rattle.network.specs.Cycle.{State};
ghost use Rattle.network.specs.Runs.{Call};
ghost use Rattle.calls.specs.Follow.{Follows};
ghost use Rattle.uses.specs.History.{RanOn};

use calls::Network;
use fabric::layout::Layout;
use line::Line;
use network::event::Event;
use switch::switch::Switch;

// Makes so many cycle calls. One for which the line has no room is refused, and counts as a call.
pub fn run_on<L: Layout, S: Switch>(
    network: &mut Network<L, S>,
    line: &mut Line<Event>,
    cycles: u32,
)
    ensures ran { (run : List Call) (s : State) → Follows (fabric_of L.plan S.turn network.old) network.old.inner run s → RanOn (fabric_of L.plan S.turn network.old) network.old.inner network.new.inner cycles run s (queue_of line.old) (queue_of line.new) }
    ensures parts { SameParts network.old network.new }
    ensures lender { SameLender line.old line.new }
{
    for _ in 0..cycles {
        let _ = network.cycle(line);
    }
}
