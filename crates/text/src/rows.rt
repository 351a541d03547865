// What each kind of line says. A line of a cable or a packet is read from its start, any other from behind its first word.
ghost use Rattle.std.specs.Prelude.{◌≡◌, ◌≤◌, [], ◌∷◌, map, length, take, codes};
ghost use Rattle.text.specs.Fields.{words, line_number, Reads, Begins};
ghost use Rattle.text.specs.Texts.{number, Any};
ghost use Rattle.text.specs.Lines.{shape_line, kind_field, kind_line, run_line, Brief, number_field, cables_line, Uncabled, slot_fields, cable_line, packet_line, Blank, Sized};

use super::fault::Fault;
use super::field::{Fields, is};
use super::parts::{Packet, Run, Shape, SwitchKind};
use fabric::parts::{Cable, Slot, WORDS};

const MOST_RUN_CYCLES: u32 = 65535;

const MOST_WORDS: u32 = WORDS as u32;

// The next `count` numbers of a line; zeros stand in the places beyond.
fn numbers<const N: usize>(fields: &mut Fields, count: usize) -> Result<[u32; N], Fault>
    requires { count ≤ N }
    ensures { Begins (λ ns. map number (take count ns)) (λ ns. (length ns ≡ N) × Blank count ns) fields.old fields.new result }
{
    let mut numbers = [0; N];
    // By index: after a loop over `&mut numbers[..count]` a proof knows their length, and not what they are.
    for i in 0..count {
        numbers[i] = fields.number()?;
    }
    Ok(numbers)
}

// `mesh W H`
pub fn mesh(mut fields: Fields) -> Result<Shape, Fault>
    ensures { Reads shape_line Any (codes "mesh" ∷ words fields.entry) (line_number fields.entry) result }
{
    let [width, height] = numbers::<2>(&mut fields, 2)?;
    fields.end()?;
    Ok(Shape::Mesh { width, height })
}

// `cabled N`
pub fn cabled(mut fields: Fields) -> Result<Shape, Fault>
    ensures { Reads shape_line Any (codes "cabled" ∷ words fields.entry) (line_number fields.entry) result }
{
    let nodes = fields.number()?;
    fields.end()?;
    Ok(Shape::Cabled { nodes })
}

// The next field, the name of a kind of switch.
fn kind(fields: &mut Fields) -> Result<SwitchKind, Fault>
    ensures { Begins kind_field Any fields.old fields.new result }
{
    match fields.word()? {
        w if is(w, b"chipper") => Ok(SwitchKind::Chipper),
        w if is(w, b"bless") => Ok(SwitchKind::Bless),
        _ => Err(fields.fault()),
    }
}

// `switch chipper` or `switch bless`
pub fn switch(mut fields: Fields) -> Result<SwitchKind, Fault>
    ensures { Reads kind_line Any (codes "switch" ∷ words fields.entry) (line_number fields.entry) result }
{
    let kind = kind(&mut fields)?;
    fields.end()?;
    Ok(kind)
}

// `run T M L seed cycles`
pub fn run(mut fields: Fields) -> Result<Run, Fault>
    ensures { Reads run_line Brief (codes "run" ∷ words fields.entry) (line_number fields.entry) result }
{
    let [tickets, words, epoch, seed, cycles] = numbers::<5>(&mut fields, 5)?;
    if cycles > MOST_RUN_CYCLES {
        return Err(fields.fault());
    }
    fields.end()?;
    Ok(Run {
        tickets,
        words,
        epoch,
        seed,
        cycles,
    })
}

// `packets P`, or the count of any list.
pub fn count(mut fields: Fields) -> Result<usize, Fault>
    ensures { Reads number_field Any (words fields.entry) (line_number fields.entry) result }
{
    let count = fields.number()? as usize;
    fields.end()?;
    Ok(count)
}

// `cables C`, which is 0 for a mesh.
pub fn cables(fields: Fields, shape: Shape) -> Result<usize, Fault>
    ensures { Reads cables_line (Uncabled shape) (codes "cables" ∷ words fields.entry) (line_number fields.entry) result }
{
    let count = count(fields)?;
    match shape {
        Shape::Mesh { .. } if count > 0 => Err(fields.fault()),
        _ => Ok(count),
    }
}

// A node and a port, with which a line begins or goes on.
fn slot(fields: &mut Fields) -> Result<Slot, Fault>
    ensures { Begins slot_fields Any fields.old fields.new result }
{
    let node = fields.number()? as usize;
    let port = fields.port()?;
    Ok(Slot { node, port })
}

// `node port node port`
pub fn cable(mut fields: Fields) -> Result<Cable, Fault>
    ensures { Reads cable_line Any (words fields.entry) (line_number fields.entry) result }
{
    let one = slot(&mut fields)?;
    let other = slot(&mut fields)?;
    fields.end()?;
    Ok(Cable { one, other })
}

// `cycle node own destination count words`, of a packet that is not due before cycle `last`
pub fn packet(mut fields: Fields, last: u32) -> Result<Packet, Fault>
    ensures { Reads packet_line (λ p. Sized p × (last ≤ p.cycle)) (words fields.entry) (line_number fields.entry) result }
{
    let [cycle, node, own, destination, count] = numbers::<5>(&mut fields, 5)?;
    if cycle < last || count < 1 || count > MOST_WORDS {
        return Err(fields.fault());
    }
    let words = numbers::<WORDS>(&mut fields, count as usize)?;
    fields.end()?;
    Ok(Packet {
        cycle,
        node,
        own,
        destination,
        count,
        words,
    })
}
