// What a switch is (in the field: a router's crossbar with its port allocator).
ghost use Rattle.std.specs.Prelude.{◌≡◌};
ghost use Rattle.switch.specs.Switches.{Handing, Turn, LawfulSwitch, handed, turned};

use fabric::parts::{Flit, Port};

// Whatever it is handed, a switch answers the four places permuted by its turn; it refuses nothing and changes nothing.
pub trait Switch {
    ghost turn: { Self → Handing → Turn };

    // Places and wishes are handed in by slot, and the places that come out stand by port.
    // A flit of the ticket `golden` is golden (in the field: of the Golden Packet), every other is ordinary.
    // The draw bits settle contests that ranks leave open.
    fn route(
        &self,
        places: [Option<Flit>; 4],
        wishes: [Option<Port>; 4],
        golden: usize,
        draws: [bool; 4],
    ) -> [Option<Flit>; 4]
        ensures { result ≡ turned (turn self.now (handed places wishes golden draws)) places };

    ghost lawful: { (x : Self) → LawfulSwitch (turn x) };
}
