// The listing of a run sheet, or of its fault.
ghost use Rattle.std.specs.Prelude.{ℕ, List};
ghost use Rattle.fabric.specs.Refusals.{shown};
ghost use Rattle.runsheet.specs.Said.{said};
ghost use Rattle.runsheet.specs.Sheets.{SheetText};
ghost use Rattle.writer.specs.Listings.{SameLender};
ghost use Rattle.runner.specs.Answering.{made_of, network_of, OneListing, OneListingOfRun, WrittenOut, Blank, Runnable, Ran, Ended, Carried};

use super::planned::Planned;
use super::session::Session;
use super::tally::Tally;
use bounds::settings::MOST_TICKETS;
use calls::Network;
use fabric::layout::Layout;
use fabric::refusal::Refusal;
use laying::{at_run_line, lay_cables, lay_mesh, settings};
use runsheet::reader::read;
use runsheet::sheet::Sheet;
use switch::bless::Bless;
use switch::chipper::Chipper;
use switch::switch::Switch;
use text::fault::Fault;
use text::lines::MOST_BYTES;
use text::parts::{MOST_PACKETS, Packet, Shape, SwitchKind};
use writer::Writer;

// A listing is a text too, and none is longer; a shorter memory is refused.
pub const MEMORY: usize = MOST_BYTES;

// Sets up a network of this layout and this switch, and carries out the sheet's run in it.
fn set_up_and_play<L: Layout + Drop, S: Switch + Drop>(
    layout: L,
    switch: S,
    sheet: &Sheet,
    writer: &mut Writer,
) -> Result<(), Refusal>
    requires { Runnable sheet.now writer.old }
    ensures ran { Ran (made_of (L.plan layout) (S.turn switch)) (said sheet.now) writer.old writer.new (shown result) }
    ensures lender { SameLender writer.old writer.new }
{
    let nodes = layout.nodes();
    let settings = settings(sheet.run);
    let mut network = Network::new(layout, switch);
    network.set_up(settings)?;
    let mut session = Session {
        network,
        nodes,
        tickets: settings.tickets,
        aims: [None; MOST_TICKETS],
        tally: Tally::default(),
    };
    let mut places = [Packet::default(); MOST_PACKETS];
    let mut planned = Planned::new(sheet.packets(), &mut places)?;
    session.play(sheet.run.cycles, &mut planned, writer)
}

// As `set_up_and_play`, with its refusal made the fault at the run's line, here in one place and not at each `?`.
fn run<L: Layout + Drop, S: Switch + Drop>(
    layout: L,
    switch: S,
    sheet: &Sheet,
    writer: &mut Writer,
) -> Result<(), Fault>
    requires { Runnable sheet.now writer.old }
    ensures ended { Ended (made_of (L.plan layout) (S.turn switch)) (said sheet.now) writer.old writer.new result }
    ensures lender { SameLender writer.old writer.new }
{
    set_up_and_play(layout, switch, sheet, writer).map_err(at_run_line)
}

// The sheet's run on this layout, with the sheet's kind of switch.
fn run_on<L: Layout + Drop>(layout: L, sheet: &Sheet, writer: &mut Writer) -> Result<(), Fault>
    requires { Runnable sheet.now writer.old }
    ensures ended { Ended (network_of (L.plan layout) (said sheet.now)) (said sheet.now) writer.old writer.new result }
    ensures lender { SameLender writer.old writer.new }
{
    match sheet.kind {
        SwitchKind::Chipper => run(layout, Chipper, sheet, writer),
        SwitchKind::Bless => run(layout, Bless, sheet, writer),
    }
}

// The sheet's run on its layout. Neither this nor `read` is inlined: the locals of each are large, and would stand on the
// stack beside those of the other.
#[inline(never)]
fn run_sheet(sheet: &Sheet, writer: &mut Writer) -> Result<(), Fault>
    requires { Runnable sheet.now writer.old }
    ensures carried { (text : List ℕ) → SheetText text (said sheet.now) → Carried text writer.old writer.new result }
    ensures lender { SameLender writer.old writer.new }
{
    match sheet.shape {
        Shape::Mesh { width, height } => {
            let mesh = lay_mesh(width, height)?;
            run_on(mesh, sheet, writer)
        }
        // A match: with a `?` the layout would stand on the stack once more.
        Shape::Cabled { nodes } => match lay_cables(nodes, sheet.cables()) {
            Ok(layout) => run_on(layout, sheet, writer),
            Err(fault) => Err(fault),
        },
    }
}

fn carry_out(bytes: &[u8], writer: &mut Writer) -> Result<(), Fault>
    requires { Blank writer.old }
    ensures carried { Carried bytes.now writer.old writer.new result }
    ensures lender { SameLender writer.old writer.new }
{
    let sheet = read(bytes)?;
    run_sheet(&sheet, writer)
}

// Writes the listing of any bytes at the start of the memory, and answers its length.
#[tactic(auto, using(crate::proofs::Only::one_listing))]
pub fn list(sheet: &[u8], memory: &mut [u8]) -> Result<usize, Refusal>
    ensures out { WrittenOut sheet.now memory.old (shown result) memory.new }
    ensures only { OneListing sheet.now }
    ensures run { OneListingOfRun }
{
    if memory.len() < MEMORY {
        return Err(Refusal::Memory);
    }
    let mut writer = Writer::new(memory);
    if let Err(fault) = carry_out(sheet, &mut writer) {
        writer.fault(fault)?;
    }
    Ok(writer.len())
}
