// Lays out what a sheet names: its layout and its settings, or the fault at the line that is refused.
#![tactic(auto)]

ghost use Rattle.std.specs.Prelude.{◌≡◌, ◌≤◌, [], slice_index, IfErr};
ghost use Rattle.fabric.specs.Refusals.{numbered};
ghost use Rattle.cabled.specs.Plans.{plan_of};
ghost use Rattle.text.specs.declared.fault.Layer.TheVariants.{Network};
ghost use Rattle.text.specs.declared.parts.Shape.{Shape as Form};
ghost use Rattle.laying.specs.Layings.{layout_line, Laid, RefusedBy, settings_of};
ghost use Rattle.laying.specs.Reports.{reported};

use bounds::settings::Settings;
use cabled::cabled::Cabled;
use fabric::layout::Layout;
use fabric::mesh::Mesh;
use fabric::parts::Cable;
use fabric::refusal::Refusal;
use text::fault::{Fault, Layer};
use text::parts::Run;

// The lines of a sheet at which refusals stand; that of a cable stands at its own.
const LAYOUT_LINE: u32 = 1;

const RUN_LINE: u32 = 3;

const CABLES_LINE: u32 = 4;

// The line at which a layout is refused.
fn line_of(refusal: Refusal) -> u32
    requires { slice_index (numbered refusal).1 0 ≤ 256 }
    ensures { result ≡ layout_line (numbered refusal).0 (numbered refusal).1 }
{
    match refusal {
        Refusal::Cable(i) => CABLES_LINE + 1 + i as u32,
        Refusal::Unreached(_) => CABLES_LINE,
        _ => LAYOUT_LINE,
    }
}

pub fn lay_mesh(width: u32, height: u32) -> Result<Mesh, Fault>
    ensures laid { Laid (Form.Mesh width height) [] (reported ⟦<Mesh as Layout>⟧.plan result) }
    ensures named { IfErr result (λ f. RefusedBy (Form.Mesh width height) [] f.refusal) }
{
    Mesh::new(width as usize, height as usize).map_err(|refusal| Fault {
        refusal,
        layer: Layer::Layout,
        line: LAYOUT_LINE,
    })
}

// Joins so many nodes by the cables. A refusal names the first cable that does not fit, by its place, or a node that has no way from node 0.
pub fn lay_cables(nodes: u32, cables: &[Cable]) -> Result<Cabled, Fault>
    ensures laid { Laid (Form.Cabled nodes) cables.now (reported plan_of result) }
    ensures named { IfErr result (λ f. RefusedBy (Form.Cabled nodes) cables.now f.refusal) }
{
    let mut layout = Cabled::new();
    // A match: a closure for `map_err` would need a clause of its own, for what `line_of` asks.
    match layout.cable(nodes as usize, cables) {
        Ok(()) => Ok(layout),
        Err(refusal) => Err(Fault {
            refusal,
            layer: Layer::Layout,
            line: line_of(refusal),
        }),
    }
}

// The settings that a run line names. No `From`, since neither type is of this crate.
pub fn settings(run: Run) -> Settings
    ensures { result ≡ settings_of run }
{
    Settings {
        tickets: run.tickets as usize,
        words: run.words as usize,
        epoch: run.epoch as usize,
        seed: run.seed as usize,
    }
}

// The fault of settings that a network refuses.
pub fn at_run_line(refusal: Refusal) -> Fault
    ensures { result ≡ record { refusal = refusal; layer = Network; line = 3 } }
{
    Fault {
        refusal,
        layer: Layer::Network,
        line: RUN_LINE,
    }
}
