// How far each node is from one, found in rounds.
ghost use Rattle.std.specs.Prelude.{◌≡◌, ℕ, ◌<◌, ◌≤◌, Some, None, Ok, Err, max, slice_index, slice_index_or};
ghost use Rattle.std.specs.List.{reduce};
ghost use Rattle.std.specs.Option.{unwrap_or};
ghost use Rattle.cabled.specs.Levels.{any, at, again, AllSteps, NamesUnreached, Level};
ghost use Rattle.cabled.specs.Tables.{next_at, Measured};

use super::wiring::Wiring;
use fabric::parts::{NODES, Port, Slot};
use fabric::refusal::Refusal;

// A shortest way visits no node twice, so it has at most this many steps.
const MOST_STEPS: u8 = 63;

// For each node, the fewest steps to one node, where a way is found.
type Levels = [Option<u8>; NODES];

// The greatest of the numbers, or 0 of none.
fn greatest(row: &[u8]) -> u8
    ensures { result ≡ unwrap_or (reduce max row.now) 0 }
{
    row.iter().copied().max().unwrap_or(0)
}

// The distances to each node, a row for each, and the greatest of them.
#[derive(Clone, Copy)]
pub(crate) struct Spans {
    pub(crate) distances: [[u8; NODES]; NODES],
    pub(crate) reach: u8,
    ghost near: { reach ≤ 63 },
}

// Each step asks that the node exists: a type for a node's number would have to be unwrapped at each index.
impl Wiring {
    // Whether the port leads to a node of this level.
    fn leads_to(&self, row: &Levels, node: usize, port: Port, level: u8) -> bool
        requires { node < self.now.nodes }
        ensures { result ≡ at level (slice_index_or row.now (next_at self.now.ends node port) None) }
    {
        row[self.far(Slot { node, port }).node] == Some(level)
    }

    // Whether a neighbour of the node has this level.
    fn meets(&self, row: &Levels, node: usize, level: u8) -> bool
        requires { node < self.now.nodes }
        ensures { result ≡ any (λ p. at level (slice_index_or row.now (next_at self.now.ends node p) None)) }
    {
        Port::ALL
            .iter()
            .any(|&port| self.leads_to(row, node, port, level))
    }

    // The node's level after one round more: beside a node of the last level it is one further.
    fn raised(&self, before: &Levels, node: usize, level: u8) -> Option<u8>
        requires { (node < self.now.nodes) × (level < 63) }
        ensures { result ≡ again (next_at self.now.ends) (λ v. slice_index_or before.now v None) level node }
    {
        before[node].or_else(|| self.meets(before, node, level).then_some(level + 1))
    }

    // One round for all nodes. In place: a node that it raises has a level that no other node is raised beside.
    fn round(&self, row: &mut Levels, level: u8)
        requires { level < 63 }
        ensures { (u : ℕ) → u < self.now.nodes → slice_index_or row.new u None ≡ again (next_at self.now.ends) (λ v. slice_index_or row.old v None) level u }
    {
        // by number, as all loops over nodes
        for node in 0..self.nodes {
            if row[node].is_none() {
                row[node] = self.raised(row, node, level);
            }
        }
    }

    // The levels of all nodes by their ways to one of them.
    fn levels(&self, to: usize) -> Levels
        requires { to < self.now.nodes }
        ensures { (u : ℕ) → u < self.now.nodes → Level (next_at self.now.ends) to u (slice_index_or result u None) }
    {
        let mut row = [None; NODES];
        row[to] = Some(0);
        for level in 0..MOST_STEPS {
            self.round(&mut row, level);
        }
        row
    }

    // The fewest steps from each node to one, unless a node has no way to it.
    fn steps(&self, to: usize) -> Result<[u8; NODES], Refusal>
        requires { to < self.now.nodes }
        ensures { elim result [ Ok row ↦ AllSteps (next_at self.now.ends) to self.now.nodes row | Err e ↦ NamesUnreached (next_at self.now.ends) to self.now.nodes e ] }
    {
        let levels = self.levels(to);
        let mut row = [0; NODES];
        for node in 0..self.nodes {
            row[node] = levels[node].ok_or(Refusal::Unreached(node))?;
        }
        Ok(row)
    }

    // The fewest steps between all nodes, unless a node has no way to node 0.
    pub(crate) fn measure(&self) -> Result<Spans, Refusal>
        ensures { elim result [ Ok s ↦ Measured self.now.nodes self.now.ends s.distances s.reach | Err e ↦ NamesUnreached (next_at self.now.ends) 0 self.now.nodes e ] }
    {
        let mut distances = [[0; NODES]; NODES];
        let mut reach = 0;
        for to in 0..self.nodes {
            let row = self.steps(to)?;
            distances[to] = row;
            reach = greatest(&row[..self.nodes]).max(reach);
        }
        Ok(Spans { distances, reach })
    }
}
