// The record of a ticket that is taken.
use fabric::parts::WORDS;

mod methods;

// The packet under a ticket, how much of it is sent, and the words received in place.
#[derive(Clone, Copy)]
pub(crate) struct Ticket {
    pub destination: u8,
    // How many words it has, and so how many places of both arrays below. `received` fills in any order, and with a batch of
    // its words, which has a ghost field, the record could not be lent in place.
    pub size: u8,
    pub sent: u8,
    pub words: [u32; WORDS],
    pub received: [Option<u32>; WORDS],
}
