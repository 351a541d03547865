// What the tests of both switches are made of.
use crate::switch::Switch;
use fabric::parts::{Flit, Port};

// The golden ticket.
pub(crate) const GOLDEN: u16 = 9;

// What a switch is handed, and what comes out.
#[derive(Clone, Copy)]
pub(crate) struct Case {
    pub(crate) places: [Option<Flit>; 4],
    pub(crate) wishes: [Option<Port>; 4],
    pub(crate) draws: [bool; 4],
    pub(crate) out: [Option<Flit>; 4],
}

impl Case {
    pub(crate) fn routed_by<S: Switch>(self, switch: &S) -> [Option<Flit>; 4] {
        switch.route(self.places, self.wishes, usize::from(GOLDEN), self.draws)
    }
}

pub(crate) fn flit(ticket: u16, number: u8, entered: u32, word: u32) -> Option<Flit> {
    Some(Flit {
        ticket,
        number,
        destination: 0,
        word,
        entered,
    })
}
