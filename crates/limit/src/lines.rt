// The lines that are printed.
ghost use Rattle.std.specs.Prelude.{Some};
ghost use Rattle.text.specs.Texts.{row, text};
ghost use Rattle.limit.specs.Lines.{limit_lines, path_line};

use bounds::limits::Limits;
use bounds::path::Hop;
use std::fmt;

// The limits, a line each.
#[derive(Clone, Copy)]
pub struct Lines(pub Limits);

impl fmt::Display for Lines {
    ghost output = { λ x. Some (text (limit_lines x.0)) };

    fn fmt<W: fmt::Write>(&self, f: &mut fmt::Formatter<W>) -> fmt::Result {
        let Limits {
            nodes,
            reach,
            tickets,
            epoch,
            latest,
        } = self.0;
        write!(
            f,
            "nodes {nodes}\nreach {reach}\ntickets {tickets}\nepoch {epoch}\nlimit {latest}\n"
        )
    }
}

// The way of a lone flit: its hops, and the node at which it ends.
#[derive(Clone, Copy)]
pub struct Path<'a> {
    pub hops: &'a [Hop],
    pub to: usize,
}

impl<'a> fmt::Display for Path<'a> {
    ghost output = { λ x. Some (row (path_line x.hops.now x.to)) };

    fn fmt<W: fmt::Write>(&self, f: &mut fmt::Formatter<W>) -> fmt::Result {
        f.write_str("path")?;
        for hop in self.hops {
            let Hop { node, port } = *hop;
            write!(f, " {node} {port}")?;
        }
        let to = self.to;
        write!(f, " {to}")
    }
}
