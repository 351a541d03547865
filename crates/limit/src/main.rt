// How late can a word be? Reads a run sheet, and prints the limits of its network
// and the way of a lone flit between the nodes farthest apart.
#![tactic(auto)]

mod answer;
mod lines;

use answer::{Answer, reply};
use bounds::limits::Limits;
use bounds::path::{farthest, path};
use fabric::layout::Layout;
use lines::{Lines, Path};
use std::io::Read;
use text::lines::MOST_BYTES;

// One byte more than a sheet may have is enough to see that it is too long.
const MOST_READ: u64 = MOST_BYTES as u64 + 1;

fn report<L: Layout>(rt: &HostRuntime, layout: &L, limits: Limits) -> anyhow::Result<()> {
    print!(rt; "{}", Lines(limits))?;
    let (from, to) = farthest(layout);
    let hops = path(layout, from, to, rt.alloc())?;
    let hops = hops.as_slice();
    println!(rt; "{}", Path { hops, to })?;
    Ok(())
}

fn main(rt: HostRuntime) -> anyhow::Result<()> {
    let mut text = Vec::new(rt.alloc());
    rt.stdin().take(MOST_READ).read_to_end(&mut text)?;
    match reply(text.as_slice()) {
        Ok(Answer::OnMesh(mesh, limits)) => report(&rt, &mesh, limits),
        Ok(Answer::OnCables(layout, limits)) => report(&rt, &layout, limits),
        Err(fault) => {
            println!(rt; "{fault}")?;
            Ok(())
        }
    }
}
