// The fields of a line, one after another.
ghost use Rattle.std.specs.Prelude.{◌≡◌, ◌==◌, Decides};
ghost use Rattle.std.specs.List.{position};
ghost use Rattle.text.specs.Faults.{told, ill_formed, too_many};
ghost use Rattle.text.specs.Texts.{parted, Any};
ghost use Rattle.text.specs.Fields.{words, line_number, NextWord, AtEnd, Begins};
ghost use Rattle.text.specs.Lines.{number_field, port_field};

use super::fault::Fault;
use super::number::number;
use fabric::parts::Port;

// The index of the first `b` of `text`, if there is one.
pub(crate) fn find(text: &[u8], b: u8) -> Option<usize>
    ensures { result ≡ position (λ x. x == b) text.now }
{
    text.iter().position(|x| *x == b)
}

// Whether two byte strings are the same, for the guards of a match: a pattern of bytes is checked byte by byte, and of `==` on slices a proof learns no equality.
pub fn is(word: &[u8], fixed: &[u8]) -> bool
    ensures { Decides result (word.now ≡ fixed.now) }
{
    word == fixed
}

// What is left of line `line` to read: nothing once its last field is read.
#[derive(Clone, Copy)]
pub struct Fields<'a> {
    rest: Option<&'a [u8]>,
    line: u32,
}

impl<'a> Fields<'a> {
    pub(crate) fn new(text: &'a [u8], line: u32) -> Fields<'a>
        ensures words { words result ≡ parted 32 text.now }
        ensures line { line_number result ≡ line }
    {
        Fields {
            rest: Some(text),
            line,
        }
    }

    // The next field.
    pub fn word(&mut self) -> Result<&'a [u8], Fault>
        ensures words { NextWord self.old self.new result }
        ensures line { line_number self.new ≡ line_number self.old }
    {
        let rest = self.rest.ok_or(self.fault())?;
        let end = find(rest, b' ').unwrap_or(rest.len());
        self.rest = rest.get(end + 1..);
        Ok(&rest[..end])
    }

    // The next field, a number.
    pub(crate) fn number(&mut self) -> Result<u32, Fault>
        ensures { Begins number_field Any self.old self.new result }
    {
        let word = self.word()?;
        number(word, self.line)
    }

    // The next field, a port's letter.
    pub(crate) fn port(&mut self) -> Result<Port, Fault>
        ensures { Begins port_field Any self.old self.new result }
    {
        match self.word()? {
            w if is(w, b"N") => Ok(Port::N),
            w if is(w, b"E") => Ok(Port::E),
            w if is(w, b"S") => Ok(Port::S),
            w if is(w, b"W") => Ok(Port::W),
            _ => Err(self.fault()),
        }
    }

    // The line is not of its form.
    pub fn fault(&self) -> Fault
        ensures { told result ≡ ill_formed (line_number self.now) }
    {
        Fault::ill_formed(self.line)
    }

    // The line's count exceeds its limit.
    pub fn excess(&self) -> Fault
        ensures { told result ≡ too_many (line_number self.now) }
    {
        Fault::too_many(self.line)
    }

    // No field is left.
    pub(crate) fn end(&self) -> Result<(), Fault>
        ensures { AtEnd self.now result }
    {
        if self.rest.is_some() {
            return Err(self.fault());
        }
        Ok(())
    }
}
