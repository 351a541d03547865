// What a cycle tells of a flit.
ghost use Rattle.std.specs.Prelude.{Some};
ghost use Rattle.network.specs.Kinds.{event_word};

use std::fmt;

#[derive(Clone, Copy, PartialEq, Eq, Debug, Default)]
pub enum Kind {
    // injected
    #[default]
    In,
    // ejected
    Out,
}

impl fmt::Display for Kind {
    ghost output = { λ k. Some (event_word k) };

    fn fmt<W: fmt::Write>(&self, f: &mut fmt::Formatter<W>) -> fmt::Result {
        match *self {
            Kind::In => f.write_str("in"),
            Kind::Out => f.write_str("out"),
        }
    }
}

#[derive(Clone, Copy, PartialEq, Eq, Debug, Default)]
pub struct Event {
    pub cycle: u32,
    pub kind: Kind,
    pub ticket: u16,
    pub number: u8,
    pub node: u8,
    // the cycle in which the flit was injected
    pub entered: u32,
}
