// Prints a worked contest of each switch: for each flit its slot, its wish and the port by which it leaves.
#![tactic(auto)]

use fabric::parts::{Flit, Port};
use std::io;
use switch::bless::Bless;
use switch::chipper::Chipper;
use switch::switch::Switch;

const DRAWS: [bool; 4] = [true; 4];

fn main(rt: HostRuntime) -> io::Result<()> {
    let places = [flit(5, 0), flit(6, 0), None, None];
    let wishes = [Some(Port::N), Some(Port::N), None, None];
    let out = Chipper.route(places, wishes, 0, DRAWS);
    show(&rt, "chipper", places, wishes, out)?;
    let out = Chipper.route(places, wishes, 5, DRAWS);
    show(&rt, "chipper, 5 golden", places, wishes, out)?;

    let places = [flit(5, 3), None, flit(2, 3), flit(9, 1)];
    let wishes = [Some(Port::E), None, Some(Port::E), Some(Port::E)];
    let out = Bless.route(places, wishes, 0, DRAWS);
    show(&rt, "bless", places, wishes, out)
}

fn flit(ticket: u16, entered: u32) -> Option<Flit> {
    Some(Flit {
        ticket,
        number: 0,
        destination: 0,
        word: 0,
        entered,
    })
}

fn show(
    rt: &HostRuntime,
    contest: &str,
    places: [Option<Flit>; 4],
    wishes: [Option<Port>; 4],
    out: [Option<Flit>; 4],
) -> io::Result<()> {
    for slot in Port::ALL {
        let (Some(flit), Some(wish)) = (places[slot.index()], wishes[slot.index()]) else {
            continue;
        };
        for port in Port::ALL {
            if out[port.index()] == Some(flit) {
                let ticket = flit.ticket;
                println!(rt; "{contest}: {slot} ticket {ticket} wish {wish} leaves {port}")?;
            }
        }
    }
    Ok(())
}
