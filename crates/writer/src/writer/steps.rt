// The steps in which a line is written: bytes, words and numbers, each after what is written.
ghost use Rattle.std.specs.Prelude.{◌≡◌, ◌+◌, ◌≤◌, [], ◌∷◌, length, decimal};
ghost use Rattle.text.specs.Texts.{figures, after_spaces};
ghost use Rattle.writer.specs.Listings.{beyond};
ghost use Rattle.writer.specs.Steps.{bytes_taken, Puts};

use super::Writer;

impl<'a> Writer<'a> {
    // How many bytes more the memory has.
    pub(super) fn room(&self) -> usize
        ensures { result ≡ length (beyond self.now) }
    {
        self.memory.len() - self.len
    }

    pub(super) fn byte(&mut self, b: u8)
        requires { 1 ≤ length (beyond self.old) }
        ensures { Puts self.old (b ∷ []) self.new }
    {
        self.memory[self.len] = b;
        self.len += 1;
    }

    pub(super) fn bytes(&mut self, s: &[u8])
        requires { length s.now ≤ length (beyond self.old) }
        ensures { Puts self.old s.now self.new }
    {
        // one by one: with `copy_from_slice` the library to link would need `memmove` from outside
        for b in s {
            self.byte(*b);
        }
    }

    // A word after a space.
    pub(super) fn word(&mut self, s: &[u8])
        requires { length s.now + 1 ≤ length (beyond self.old) }
        ensures { Puts self.old (32 ∷ s.now) self.new }
    {
        self.byte(b' ');
        self.bytes(s);
    }

    // A number in decimal. By hand: for Display this would have to be a fmt::Write, each write of which can fail, though room is measured first.
    pub(super) fn number(&mut self, n: u32)
        requires { length (decimal n) ≤ length (beyond self.old) }
        ensures { Puts self.old (decimal n) self.new }
    {
        if n < 10 {
            self.byte(b'0' + n as u8)
        } else {
            self.number(n / 10);
            self.byte(b'0' + (n % 10) as u8)
        }
    }

    // A number after a space.
    pub(super) fn next(&mut self, n: u32)
        requires { length (decimal n) + 1 ≤ length (beyond self.old) }
        ensures { Puts self.old (32 ∷ decimal n) self.new }
    {
        self.byte(b' ');
        self.number(n);
    }

    // Numbers, each after a space.
    pub(super) fn all(&mut self, ns: &[u32])
        requires { bytes_taken (figures ns.now) ≤ length (beyond self.old) }
        ensures { Puts self.old (after_spaces (figures ns.now)) self.new }
    {
        for n in ns {
            self.next(*n);
        }
    }
}
