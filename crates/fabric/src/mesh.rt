// The mesh: nodes in rows and columns.
ghost use Rattle.std.specs.Prelude.{◌≡◌, ◌/◌, ◌%◌, ◌<◌};
ghost use Rattle.fabric.specs.Verdicts.{granting};
ghost use Rattle.fabric.specs.Refusals.{shown};
ghost use Rattle.fabric.specs.Meshes.{Fair, mesh_plan, mesh_verdict, spot};
ghost use Rattle.fabric.specs.Grid.{mesh_lawful};

use super::layout::Layout;
use super::parts::{NODES, Port, Slot};
use super::refusal::Refusal;
use std::cmp::Ordering;

#[derive(Clone, Copy, Debug)]
pub struct Mesh {
    width: usize,
    height: usize,
    ghost fair: { Fair width height },
}

impl Mesh {
    pub fn new(width: usize, height: usize) -> Result<Mesh, Refusal>
        ensures { granting ⟦<Mesh as Layout>⟧.plan (shown result) ≡ mesh_verdict width height }
    {
        match width.checked_mul(height) {
            Some(1..=NODES) => Ok(Mesh { width, height }),
            _ => Err(Refusal::Nodes),
        }
    }

    // The node's column and row.
    fn column_and_row(&self, node: usize) -> (usize, usize)
        ensures { result ≡ (node % self.now.width, node / self.now.width) }
    {
        (node % self.width, node / self.width)
    }

    // The slot of the node in this column and row.
    fn slot(&self, column: usize, row: usize, port: Port) -> Slot
        requires { (column < self.now.width) × (row < self.now.height) }
        ensures { result ≡ spot self.now.width column row port }
    {
        Slot {
            node: row * self.width + column,
            port,
        }
    }
}

impl Layout for Mesh {
    ghost plan = { λ m. mesh_plan m.width m.height };

    ghost lawful = { λ m. mesh_lawful m.width m.height m.fair };

    fn nodes(&self) -> usize {
        self.width * self.height
    }

    fn far_end(&self, node: usize, port: Port) -> Slot {
        let here = Slot { node, port };
        if node >= self.nodes() {
            return here;
        }
        let (column, row) = self.column_and_row(node);
        match port {
            Port::N if row > 0 => self.slot(column, row - 1, Port::S),
            Port::E if column + 1 < self.width => self.slot(column + 1, row, Port::W),
            Port::S if row + 1 < self.height => self.slot(column, row + 1, Port::N),
            Port::W if column > 0 => self.slot(column - 1, row, Port::E),
            _ => here,
        }
    }

    fn distance(&self, from: usize, to: usize) -> usize {
        let nodes = self.nodes();
        if from >= nodes || to >= nodes {
            return 0;
        }
        let (column, row) = self.column_and_row(from);
        let (aim_column, aim_row) = self.column_and_row(to);
        let columns = column.abs_diff(aim_column);
        let rows = row.abs_diff(aim_row);
        columns + rows
    }

    fn wish(&self, from: usize, to: usize) -> Option<Port> {
        let nodes = self.nodes();
        if from >= nodes || to >= nodes {
            return None;
        }
        let (column, row) = self.column_and_row(from);
        let (aim_column, aim_row) = self.column_and_row(to);
        match (column.cmp(&aim_column), row.cmp(&aim_row)) {
            (Ordering::Less, _) => Some(Port::E),
            (Ordering::Greater, _) => Some(Port::W),
            (_, Ordering::Less) => Some(Port::S),
            (_, Ordering::Greater) => Some(Port::N),
            (Ordering::Equal, Ordering::Equal) => None,
        }
    }

    fn reach(&self) -> usize {
        self.width + self.height - 2
    }
}

#[cfg(test)]
mod tests {
    use super::*;

    // The number that refuses a mesh of these sides, or 0.
    fn refused(width: usize, height: usize) -> u8 {
        Mesh::new(width, height).err().map_or(0, Refusal::number)
    }

    #[test]
    fn sizes(rt: HostRuntime) {
        assert_eq!(rt; refused(64, 1), 0);
        assert_eq!(rt; refused(1, 64), 0);
        assert_eq!(rt; refused(8, 8), 0);
        assert_eq!(rt; refused(13, 5), 12);
        assert_eq!(rt; refused(0, 1), 12);
        assert_eq!(rt; refused(1, 0), 12);
        assert_eq!(rt; refused(usize::MAX, 2), 12);
        // 2^32 times 2^32 is 0 in 64 bits
        assert_eq!(rt; refused(4294967296, 4294967296), 12);
    }
}
