// What a ticket's record is asked and told.
ghost use Rattle.std.specs.Prelude.{◌≡◌, ◌≤◌, length, min};
ghost use Rattle.network.specs.Runs.{over};
ghost use Rattle.calls.specs.Records.{Packed, all_in, values, Receives, Sends};

use super::Ticket;
use fabric::parts::{Flit, WORDS};

// Whether every one of the first places holds a word.
fn all_received(received: &[Option<u32>; WORDS], places: usize) -> bool
    requires { places ≤ 4 }
    ensures { result ≡ all_in received.now places }
{
    received.iter().take(places).all(|word| word.is_some())
}

impl Ticket {
    pub(crate) fn new(destination: u8, words: &[u32]) -> Ticket
        requires { length words.now ≤ 4 }
        ensures { Packed result destination words.now }
    {
        let mut copied = [0; WORDS];
        copied[..words.len()].copy_from_slice(words);
        Ticket {
            destination,
            size: words.len() as u8,
            sent: 0,
            words: copied,
            received: [None; WORDS],
        }
    }

    // How many places the words take. A ghost field that says `size ≤ 4` would keep the record from being lent in place.
    fn places(&self) -> usize
        ensures { result ≡ min self.now.size 4 }
    {
        usize::from(self.size).min(WORDS)
    }

    // Whether every word of its packet is received.
    pub(crate) fn complete(&self) -> bool
        ensures { result ≡ all_in self.now.received (min self.now.size 4) }
    {
        all_received(&self.received, self.places())
    }

    // Writes the words received over the front of a memory.
    pub(crate) fn write(&self, memory: &mut [u32])
        requires { self.now.size ≤ length memory.old }
        ensures { memory.new ≡ over (values self.now.received (min self.now.size 4)) memory.old }
    {
        let places = self.places();
        let words = self.received.map(|word| word.unwrap_or(0));
        memory[..places].copy_from_slice(&words[..places]);
    }

    // Writes a word at its place.
    pub(crate) fn receive(&mut self, number: u8, word: u32)
        ensures { Receives self.old self.new number word }
    {
        let k = usize::from(number);
        if k < WORDS {
            self.received[k] = Some(word);
        }
    }

    // The next flit of the packet, if one is left.
    pub(crate) fn send(&mut self, ticket: u16, cycle: u32) -> Option<Flit>
        ensures { Sends self.old self.new ticket cycle result }
    {
        let word = *self.words.get(usize::from(self.sent))?;
        let flit = Flit {
            ticket,
            number: self.sent,
            destination: self.destination,
            word,
            entered: cycle,
        };
        self.sent += 1;
        Some(flit)
    }
}
