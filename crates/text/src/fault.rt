// A fault of a text: why it is refused, by which layer, and at which line, counted from 1 (0 where no line is named).
ghost use Rattle.std.specs.Prelude.{◌≡◌, Some};
ghost use Rattle.text.specs.Faults.{told, too_long, ill_formed, too_many, layer_word, fault_fields};
ghost use Rattle.text.specs.Texts.{row};

use fabric::refusal::Refusal;
use std::fmt;

// Who refuses: the reader of the text, the layout that it names, or the network's set-up.
#[derive(Clone, Copy, PartialEq, Eq, Debug)]
pub enum Layer {
    Sheet,
    Layout,
    Network,
}

impl fmt::Display for Layer {
    ghost output = { λ l. Some (layer_word l) };

    fn fmt<W: fmt::Write>(&self, f: &mut fmt::Formatter<W>) -> fmt::Result {
        match *self {
            Layer::Sheet => f.write_str("sheet"),
            Layer::Layout => f.write_str("layout"),
            Layer::Network => f.write_str("network"),
        }
    }
}

#[derive(Clone, Copy, PartialEq, Eq, Debug)]
pub struct Fault {
    pub refusal: Refusal,
    pub layer: Layer,
    pub line: u32,
}

impl Fault {
    // The text is too long.
    pub(crate) fn too_long() -> Fault
        ensures { told result ≡ too_long }
    {
        Fault {
            refusal: Refusal::Length,
            layer: Layer::Sheet,
            line: 0,
        }
    }

    // The line is not of its form, lacks its end, is missing or is one too many.
    pub(crate) fn ill_formed(line: u32) -> Fault
        ensures { told result ≡ ill_formed line }
    {
        Fault {
            refusal: Refusal::Form,
            layer: Layer::Sheet,
            line,
        }
    }

    // The line's count exceeds its limit.
    pub(crate) fn too_many(line: u32) -> Fault
        ensures { told result ≡ too_many line }
    {
        Fault {
            refusal: Refusal::Count,
            layer: Layer::Sheet,
            line,
        }
    }
}

// The fault's line, without its end.
impl fmt::Display for Fault {
    ghost output = { λ x. Some (row (fault_fields (told x))) };

    fn fmt<W: fmt::Write>(&self, f: &mut fmt::Formatter<W>) -> fmt::Result {
        let layer = self.layer;
        let number = self.refusal.number();
        let line = self.line;
        write!(f, "fault {layer} {number} {line}")
    }
}
