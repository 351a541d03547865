// The reader of run sheets judges each line by the section that it is in.
ghost use Rattle.std.specs.Prelude.{◌≡◌, length, MatchResult};
ghost use Rattle.std.specs.List.{AllByRecursion};
ghost use Rattle.batch.specs.Items.{items};
ghost use Rattle.text.specs.Faults.{told, too_many};
ghost use Rattle.text.specs.Fields.{words, line_number};
ghost use Rattle.text.specs.Texts.{Fits};
ghost use Rattle.runsheet.specs.Said.{said};
ghost use Rattle.runsheet.specs.Sheets.{SheetText, Refused, OneSheet};
ghost use Rattle.runsheet.specs.Reading.{entry_line, draft, Suits, Judges, Within, Exceeds, Valid, Grown, Reached, Refuses, after};

use super::sheet::Sheet;
use batch::Batch;
use fabric::parts::Cable;
use text::fault::Fault;
use text::field::{Fields, is};
use text::lines::Lines;
use text::parts::{MOST_CABLES, MOST_PACKETS, Packet, Run, Shape, SwitchKind};
use text::rows;

// What the next line has to be.
#[derive(Clone, Copy)]
enum Section {
    Layout,
    Switch,
    Run,
    Cables,
    Cable,
    Packets,
    Packet,
    End,
}

// What a line says.
#[derive(Clone, Copy)]
enum Entry {
    Shape(Shape),
    Kind(SwitchKind),
    Run(Run),
    Cables(usize),
    Cable(Cable),
    Packets(usize),
    Packet(Packet),
}

// A count over its limit is refused only where its line is of its form.
fn check_limit(entry: Entry, line: &Fields) -> Result<(), Fault>
    ensures { MatchResult result (λ _. Within entry) (λ f. (told f ≡ too_many (line_number line.now)) × Exceeds entry) }
{
    let (count, most) = match entry {
        Entry::Cables(count) => (count, MOST_CABLES),
        Entry::Packets(count) => (count, MOST_PACKETS),
        _ => return Ok(()),
    };
    if count > most {
        return Err(line.excess());
    }
    Ok(())
}

// The next item of a list while fewer are read than were told, or what comes past the list.
fn go_on<T: Copy, const N: usize>(
    list: &Batch<T, N>,
    told: usize,
    item: Section,
    past: Section,
) -> Section
    ensures { result ≡ after (length (items list.now)) told item past }
{
    if list.len() < told { item } else { past }
}

// What was read of a sheet; of its cables and packets the first of as many as were told, `cable_count` and `packet_count`.
#[derive(Drop)]
struct Reader {
    section: Section,
    shape: Shape,
    kind: SwitchKind,
    run: Run,
    cables: Batch<Cable, MOST_CABLES>,
    cable_count: usize,
    packets: Batch<Packet, MOST_PACKETS>,
    packet_count: usize,
    // the cycle of the last packet
    last: u32,
}

impl Reader {
    fn new() -> Reader
        ensures { Valid (draft result) × (result.section ≡ Section.Layout) }
    {
        Reader {
            section: Section::Layout,
            // A blank until its line is read, as all that follows: the section says how far that is. No default is
            // derived for a variant with fields.
            shape: Shape::Cabled { nodes: 0 },
            kind: SwitchKind::default(),
            run: Run::default(),
            cables: Batch::new(Cable::default()),
            cable_count: 0,
            packets: Batch::new(Packet::default()),
            packet_count: 0,
            last: 0,
        }
    }

    // What the next line says. A cable and a packet have no fixed first word, so their lines are
    // read from the start.
    fn entry(&self, line: &Fields) -> Result<Entry, Fault>
        ensures { Judges (draft self.now) (line_number line.now) (words line.now) result }
    {
        let mut fields = *line;
        let word = fields.word()?;
        match (self.section, word) {
            (Section::Layout, w) if is(w, b"mesh") => rows::mesh(fields).map(Entry::Shape),
            (Section::Layout, w) if is(w, b"cabled") => { rows::cabled(fields).map(Entry::Shape) }
            (Section::Switch, w) if is(w, b"switch") => rows::switch(fields).map(Entry::Kind),
            (Section::Run, w) if is(w, b"run") => rows::run(fields).map(Entry::Run),
            (Section::Cables, w) if is(w, b"cables") => {
                rows::cables(fields, self.shape).map(Entry::Cables)
            }
            (Section::Cable, _) => rows::cable(*line).map(Entry::Cable),
            (Section::Packets, w) if is(w, b"packets") => {
                rows::count(fields).map(Entry::Packets)
            }
            (Section::Packet, _) => rows::packet(*line, self.last).map(Entry::Packet),
            _ => Err(line.fault()),
        }
    }

    // Takes in what a line says.
    fn put(&mut self, entry: Entry)
        requires valid { Valid (draft self.old) }
        requires suits { AllByRecursion Fits (entry_line entry) × Suits (draft self.old) entry × Within entry }
        ensures { Grown (draft self.old) entry (draft self.new) }
    {
        match entry {
            Entry::Shape(shape) => {
                self.shape = shape;
                self.section = Section::Switch;
            }
            Entry::Kind(kind) => {
                self.kind = kind;
                self.section = Section::Run;
            }
            Entry::Run(run) => {
                self.run = run;
                self.section = Section::Cables;
            }
            Entry::Cables(count) => {
                self.cable_count = count;
                self.section = go_on(&self.cables, count, Section::Cable, Section::Packets);
            }
            Entry::Cable(cable) => {
                self.cables.push(cable).unwrap();
                let count = self.cable_count;
                self.section = go_on(&self.cables, count, Section::Cable, Section::Packets);
            }
            Entry::Packets(count) => {
                self.packet_count = count;
                self.section = go_on(&self.packets, count, Section::Packet, Section::End);
            }
            Entry::Packet(packet) => {
                self.packets.push(packet).unwrap();
                self.last = packet.cycle;
                let count = self.packet_count;
                self.section = go_on(&self.packets, count, Section::Packet, Section::End);
            }
        }
    }

    // Reads the next line.
    fn step(&mut self, line: &Fields) -> Result<(), Fault>
        requires { Valid (draft self.old) }
        ensures { MatchResult result (λ _. Reached (draft self.old) (draft self.new) (words line.now)) (λ f. Refuses (draft self.old) (line_number line.now) (words line.now) f) }
    {
        let entry = self.entry(line)?;
        check_limit(entry, line)?;
        self.put(entry);
        Ok(())
    }
}

// Reads a whole sheet. It is not inlined, so that its locals are off the stack while the sheet is run.
#[tactic(auto, using(crate::proofs::Single::one_sheet))]
#[inline(never)]
pub fn read(bytes: &[u8]) -> Result<Sheet, Fault>
    ensures read { MatchResult result (λ s. SheetText bytes.now (said s)) (λ f. Refused bytes.now f) }
    ensures only { OneSheet bytes.now }
{
    let mut lines = Lines::new(bytes)?;
    let mut reader = Reader::new();
    while !lines.is_empty() {
        reader.step(&lines.next_line()?)?;
    }
    match reader.section {
        Section::End => Ok(Sheet {
            shape: reader.shape,
            kind: reader.kind,
            run: reader.run,
            cables: reader.cables,
            packets: reader.packets,
        }),
        _ => Err(lines.fault()),
    }
}

#[cfg(test)]
mod tests {
    use super::read;
    use fabric::parts::Port;
    use std::test::Fail;

    // The number and the line by which the text is refused, or zeros where it is read.
    fn refused(text: &str) -> (u8, u32) {
        match read(text.as_bytes()) {
            Err(fault) => (fault.refusal.number(), fault.line),
            Ok(_) => (0, 0),
        }
    }

    #[test]
    fn table(rt: HostRuntime) {
        let table = [
            (
                "mesh 2 1\nswitch bless\nrun 1 2 4 1 3\ncables 0\npackets 1\n0 0 0 1 2 7 9\n",
                0,
                0,
            ),
            (
                "cabled 1\nswitch chipper\nrun 1 2 8 1 65535\ncables 0\npackets 0\n",
                0,
                0,
            ),
            ("", 16, 1),
            ("mesh 2 1", 16, 1),
            ("mesh 2 1\r\n", 16, 1),
            ("mesh\t2 1\n", 16, 1),
            ("mesh 02 1\n", 16, 1),
            ("mesh  2 1\n", 16, 1),
            ("mesh 2 1 \n", 16, 1),
            ("mesh 2\nswitch bless\n", 16, 1),
            ("mesh 4294967296 1\n", 16, 1),
            ("mesh 4294967295 1\n", 16, 2),
            ("mesh 2 1\nswitch other\n", 16, 2),
            ("mesh 2 1\nswitch bless\nrun 1 2 4 1 65536\n", 16, 3),
            ("mesh 2 1\nswitch bless\nrun 1 2 4 1 3\ncables 1\n", 16, 4),
            ("mesh 2 1\nswitch bless\nrun 1 2 4 1 3\ncables 129\n", 16, 4),
            ("cabled 2\nswitch bless\nrun 1 2 4 1 3\ncables 129\n", 17, 4),
            ("cabled 2\nswitch bless\nrun 1 2 4 1 3\ncables 129", 16, 4),
            (
                "cabled 2\nswitch bless\nrun 1 2 4 1 3\ncables 1\n0 e 1 W\n",
                16,
                5,
            ),
            (
                "cabled 2\nswitch bless\nrun 1 2 4 1 3\ncables 2\n0 E 1 W\n",
                16,
                6,
            ),
            (
                "cabled 2\nswitch bless\nrun 1 2 4 1 3\ncables 1\n0 E 1 W\n0 N 1 S\n",
                16,
                6,
            ),
            (
                "mesh 2 1\nswitch bless\nrun 1 2 4 1 3\ncables 0\npackets 257\n",
                17,
                5,
            ),
            (
                "mesh 2 1\nswitch bless\nrun 1 2 4 1 3\ncables 0\npackets 0\n\n",
                16,
                6,
            ),
            (
                "mesh 2 1\nswitch bless\nrun 1 2 4 1 3\ncables 0\npackets 1\n",
                16,
                6,
            ),
            (
                "mesh 2 1\nswitch bless\nrun 1 2 4 1 3\ncables 0\npackets 1\n0 0 0 1 0\n",
                16,
                6,
            ),
            (
                "mesh 2 1\nswitch bless\nrun 1 2 4 1 3\ncables 0\npackets 1\n0 0 0 1 2 7\n",
                16,
                6,
            ),
            (
                "mesh 2 1\nswitch bless\nrun 1 2 4 1 3\ncables 0\npackets 1\n0 0 0 1 5 1 1 1 1 1\n",
                16,
                6,
            ),
            (
                "mesh 2 1\nswitch bless\nrun 1 2 4 1 3\ncables 0\npackets 2\n5 0 0 1 1 7\n4 0 0 1 1 7\n",
                16,
                7,
            ),
        ];
        for (text, number, line) in table {
            assert_eq!(rt; refused(text), (number, line), "{}", text);
        }
    }

    #[test]
    fn lists(rt: HostRuntime) -> Result<(), Fail> {
        let sheet = read(
            b"cabled 2\nswitch bless\nrun 1 2 8 1 9\ncables 2\n0 E 1 W\n1 N 0 S\npackets 1\n4 0 0 1 2 7 9\n",
        )?;
        let cables = sheet.cables();
        let packets = sheet.packets();
        assert!(rt; cables.len() == 2 && packets.len() == 1);
        assert_eq!(rt; cables[1].one.port, Port::N);
        assert_eq!(rt; packets[0].words, [7, 9, 0, 0]);
        Ok(())
    }

    #[test]
    fn long(rt: HostRuntime) -> Result<(), Fail> {
        let Err(fault) = read(&[b'\n'; 65537]) else {
            return Err(Fail::new("read"));
        };
        assert_eq!(rt; fault.to_string(rt.alloc())?.as_str(), "fault sheet 15 0");
        Ok(())
    }
}
