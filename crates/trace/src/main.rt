// Runs a small network and prints what happens in it. Six cards stand in a mesh of three columns and two rows;
// each but the last sends two words to the last, which sends two to the first.
#![tactic(auto)]

use anyhow::anyhow;
use bounds::settings::Settings;
use calls::Network;
use fabric::mesh::Mesh;
use fabric::refusal::Refusal;
use line::Line;
use network::event::Event;
use switch::chipper::Chipper;

const NODES: usize = 6;

const LAST: usize = 5;

const CYCLES: u32 = 16;

// Two events a node and cycle at most.
const PLACES: usize = 12;

fn main(rt: HostRuntime) -> anyhow::Result<()> {
    let mut network = Network::new(lawful(Mesh::new(3, 2))?, Chipper);
    let settings = Settings {
        tickets: 1,
        words: 2,
        epoch: 8,
        seed: 1,
    };
    lawful(network.set_up(settings))?;
    for node in 0..NODES {
        lawful(network.offer(node, 0, destination(node), &[node as u32, 7]))?;
    }
    let mut memory = [Event::default(); PLACES];
    let mut line = Line::new(&mut memory);
    for cycle in 0..CYCLES {
        lawful(network.cycle(&mut line))?;
        tell(&rt, &mut line)?;
        collect(&rt, &mut network, cycle)?;
    }
    let limit = network.limit();
    println!(rt; "limit {limit}")?;
    Ok(())
}

fn destination(node: usize) -> usize {
    if node == LAST { 0 } else { LAST }
}

fn lawful<T: Drop>(res: Result<T, Refusal>) -> anyhow::Result<T> {
    res.map_err(|_| anyhow!("a call is refused"))
}

// Prints the events of a cycle: cycle, kind, ticket, flit number and node.
fn tell(rt: &HostRuntime, line: &mut Line<Event>) -> anyhow::Result<()> {
    while let Some(event) = line.take() {
        let Event {
            cycle,
            kind,
            ticket,
            number,
            node,
            ..
        } = event;
        println!(rt; "{cycle} {kind} {ticket} {number} {node}")?;
    }
    Ok(())
}

// Collects what is complete: cycle, ticket and words.
fn collect(
    rt: &HostRuntime,
    network: &mut Network<Mesh, Chipper>,
    cycle: u32,
) -> anyhow::Result<()> {
    for node in 0..NODES {
        let mut words = [0; 2];
        if network
            .collect(destination(node), node, 0, &mut words)
            .is_ok()
        {
            let [first, second] = words;
            println!(rt; "{cycle} done {node} {first} {second}")?;
        }
    }
    Ok(())
}
