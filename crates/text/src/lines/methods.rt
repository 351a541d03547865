// A text is read line by line.
ghost use Rattle.std.specs.Prelude.{◌≡◌, ◌+◌, [], Decides};
ghost use Rattle.text.specs.Faults.{told, ill_formed};
ghost use Rattle.text.specs.Unread.{unread, line_count, Opens, NextLine};

use super::{Lines, MOST_BYTES};
use crate::fault::Fault;
use crate::field::{Fields, find};

impl<'a> Lines<'a> {
    pub fn new(text: &'a [u8]) -> Result<Lines<'a>, Fault>
        ensures { Opens text.now result }
    {
        if text.len() > MOST_BYTES {
            return Err(Fault::too_long());
        }
        Ok(Lines {
            rest: text,
            read: 0,
        })
    }

    // The fields of the next line, if it has its end.
    pub fn next_line(&mut self) -> Result<Fields<'a>, Fault>
        ensures { NextLine self.old self.new result }
    {
        let rest = self.rest;
        let end = find(rest, b'\n').ok_or(self.fault())?;
        self.rest = &rest[end + 1..];
        self.read += 1;
        Ok(Fields::new(&rest[..end], self.read))
    }

    pub fn is_empty(&self) -> bool
        ensures { Decides result (unread self.now ≡ []) }
    {
        self.rest.is_empty()
    }

    // The line after those that were read lacks its end, is missing or is one too many.
    pub fn fault(&self) -> Fault
        ensures { told result ≡ ill_formed (line_count self.now + 1) }
    {
        Fault::ill_formed(self.read + 1)
    }
}
