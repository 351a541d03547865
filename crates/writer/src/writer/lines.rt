// The lines of a listing. A line that the memory has no room for is refused, and nothing of it is written.
ghost use Rattle.std.specs.Prelude.{◌≡◌, ◌+◌, ◌≤◌, [], ◌∷◌, length};
ghost use Rattle.fabric.specs.Refusals.{shown};
ghost use Rattle.text.specs.Faults.{told, fault_fields};
ghost use Rattle.text.specs.Texts.{written};
ghost use Rattle.writer.specs.Listings.{listed, beyond, SameLender, LineOut, stamped_line, event_line, no_line, done_line, mean_word, end_line};
ghost use Rattle.writer.specs.Steps.{Puts};

use super::Writer;
use crate::widths::{after_stamped, digits, layer_word, mean_width};
use fabric::refusal::Refusal;
use text::fault::Fault;

impl<'a> Writer<'a> {
    pub fn new(memory: &'a mut [u8]) -> Writer<'a>
        ensures empty { (listed result ≡ []) × (beyond result ≡ memory.old) }
        ensures lender { result.memory.ghost_name ≡ memory.entry.ghost_name }
    {
        Writer { memory, len: 0 }
    }

    pub fn len(&self) -> usize
        ensures { result ≡ length (listed self.now) }
    {
        self.len
    }

    // A flit enters or is taken off. Any bytes do as the word: the writer does not judge them.
    pub fn event(
        &mut self,
        cycle: u32,
        kind: &[u8],
        ticket: u32,
        flit: u32,
        node: u32,
    ) -> Result<(), Refusal>
        ensures line { LineOut self.old (event_line cycle kind.now ticket flit node) self.new (shown result) }
        ensures lender { SameLender self.old self.new }
    {
        self.stamped(cycle, kind, ticket, &[flit, node])
    }

    // A packet is refused. Any number does as the refusal: the writer does not judge it.
    pub fn no(&mut self, cycle: u32, refusal: u32, node: u32, own: u32) -> Result<(), Refusal>
        ensures line { LineOut self.old (no_line cycle refusal node own) self.new (shown result) }
        ensures lender { SameLender self.old self.new }
    {
        self.stamped(cycle, b"no", refusal, &[node, own])
    }

    // A packet is collected.
    pub fn done(&mut self, cycle: u32, ticket: u32, words: &[u32]) -> Result<(), Refusal>
        ensures line { LineOut self.old (done_line cycle ticket words.now) self.new (shown result) }
        ensures lender { SameLender self.old self.new }
    {
        self.stamped(cycle, b"done", ticket, words)
    }

    // A line of a cycle: its number, a word and one number or more.
    fn stamped(&mut self, cycle: u32, kind: &[u8], first: u32, more: &[u32]) -> Result<(), Refusal>
        ensures line { LineOut self.old (stamped_line cycle kind.now (first ∷ more.now)) self.new (shown result) }
        ensures lender { SameLender self.old self.new }
    {
        after_stamped(self.room(), cycle, kind, first, more).ok_or(Refusal::Memory)?;
        self.number(cycle);
        self.word(kind);
        self.next(first);
        self.all(more);
        self.byte(b'\n');
        Ok(())
    }

    // The last line: flits entered, flits taken off, and their mean in tenths.
    pub fn end(&mut self, entered: u32, off: u32, mean: Option<u32>) -> Result<(), Refusal>
        ensures line { LineOut self.old (end_line entered off mean) self.new (shown result) }
        ensures lender { SameLender self.old self.new }
    {
        // the bytes of `end`, three spaces and the line's end
        if self.room() < 7 + digits(entered) + digits(off) + mean_width(mean) {
            return Err(Refusal::Memory);
        }
        self.bytes(b"end");
        self.next(entered);
        self.next(off);
        self.mean(mean);
        self.byte(b'\n');
        Ok(())
    }

    // A mean in tenths, after a space.
    fn mean(&mut self, mean: Option<u32>)
        requires { length (mean_word mean) + 1 ≤ length (beyond self.old) }
        ensures { Puts self.old (32 ∷ mean_word mean) self.new }
    {
        match mean {
            None => self.word(b"-"),
            Some(tenths) => {
                self.next(tenths / 10);
                self.byte(b'.');
                self.number(tenths % 10)
            }
        }
    }

    // A fault is the whole listing.
    pub fn fault(&mut self, fault: Fault) -> Result<(), Refusal>
        ensures line { LineOut self.old (fault_fields (told fault)) self.new (shown result) }
        ensures lender { SameLender self.old self.new }
        ensures few { length (written (fault_fields (told fault))) ≤ 36 }
    {
        let layer = layer_word(fault.layer);
        let number = u32::from(fault.refusal.number());
        // the bytes of `fault`, three spaces and the line's end
        if self.room() < 9 + layer.len() + digits(number) + digits(fault.line) {
            return Err(Refusal::Memory);
        }
        self.bytes(b"fault");
        self.word(layer);
        self.next(number);
        self.next(fault.line);
        self.byte(b'\n');
        Ok(())
    }
}
