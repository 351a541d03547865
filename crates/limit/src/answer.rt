// What a sheet is answered.
ghost use Rattle.std.specs.Prelude.{◌≡◌, IfOk, IfErr};
ghost use Rattle.laying.specs.Layings.{settings_of, settled};
ghost use Rattle.laying.specs.Reports.{reported};
ghost use Rattle.bounds.specs.Lateness.{limits_of};
ghost use Rattle.limit.specs.Answers.{AlwaysInTime, Answered, Named, OneAnswer, meant};

use bounds::limits::Limits;
use cabled::cabled::Cabled;
use fabric::layout::Layout;
use fabric::mesh::Mesh;
use laying::{at_run_line, lay_cables, lay_mesh, settings};
use runsheet::reader::read;
use text::fault::Fault;
use text::parts::{Run, Shape};

// The layout that a sheet names, and the limits of its settings.
#[derive(Clone, Copy)]
pub enum Answer {
    OnMesh(Mesh, Limits),
    OnCables(Cabled, Limits),
}

fn bound<L: Layout>(layout: &L, run: Run) -> Result<Limits, Fault>
    ensures judged { reported (λ _. L.plan layout.now) result ≡ settled run (L.plan layout.now) }
    ensures exact { IfOk result (λ l. l ≡ limits_of (L.plan layout.now) (settings_of run)) }
    ensures kept { IfOk result (λ l. AlwaysInTime (L.plan layout.now) (settings_of run) l.latest) }
{
    Limits::of(layout, settings(run)).map_err(at_run_line)
}

#[tactic(auto, using(crate::proofs::Answering::one_answer))]
pub fn reply(bytes: &[u8]) -> Result<Answer, Fault>
    ensures answered { Answered bytes.now (reported meant result) }
    ensures named { IfErr result (Named bytes.now) }
    ensures only { OneAnswer bytes.now }
{
    let sheet = read(bytes)?;
    match sheet.shape {
        Shape::Mesh { width, height } => {
            let mesh = lay_mesh(width, height)?;
            let limits = bound(&mesh, sheet.run)?;
            Ok(Answer::OnMesh(mesh, limits))
        }
        Shape::Cabled { nodes } => {
            let layout = lay_cables(nodes, sheet.cables())?;
            let limits = bound(&layout, sheet.run)?;
            Ok(Answer::OnCables(layout, limits))
        }
    }
}

#[cfg(test)]
mod tests {
    use super::*;
    use std::test::Fail;

    // The fault's line, or nothing where there is none.
    fn fault_of(rt: &HostRuntime, text: &str) -> Result<String, Fail> {
        let Err(fault) = reply(text.as_bytes()) else {
            return Ok(String::new(rt.alloc()));
        };
        Ok(format!(in rt.alloc(); "{fault}")?)
    }

    #[test]
    fn faults_in_their_order(rt: HostRuntime) -> Result<(), Fail> {
        let table = [
            (
                "mesh 64 1\nswitch bless\nrun 8 4 4096 65535 65535\ncables 0\npackets 0\n",
                "",
            ),
            (
                "mesh 13 5\nswitch bless\nrun 9 2 7 0\ncables 0\npackets 0\n",
                "fault sheet 16 3",
            ),
            (
                "mesh 13 5\nswitch bless\nrun 9 2 7 0 1\ncables 0\npackets 0\n",
                "fault layout 12 1",
            ),
            (
                "mesh 3 2\nswitch bless\nrun 9 2 7 0 1\ncables 0\npackets 0\n",
                "fault network 1 3",
            ),
            (
                "mesh 3 2\nswitch bless\nrun 1 2 7 0 1\ncables 0\npackets 0\n",
                "fault network 2 3",
            ),
            (
                "mesh 3 2\nswitch bless\nrun 1 2 8 0 1\ncables 0\npackets 0\n",
                "fault network 3 3",
            ),
            (
                "cabled 2\nswitch chipper\nrun 1 2 4 1 1\ncables 1\n0 E 1 W\npackets 0\n",
                "",
            ),
            (
                "cabled 0\nswitch chipper\nrun 1 2 4 1 1\ncables 1\n0 E 1 W\npackets 0\n",
                "fault layout 12 1",
            ),
            (
                "cabled 2\nswitch chipper\nrun 9 2 4 1 1\ncables 2\n0 E 1 W\n0 S 1 W\npackets 0\n",
                "fault layout 13 6",
            ),
            (
                "cabled 3\nswitch chipper\nrun 9 2 4 1 1\ncables 1\n0 E 1 W\npackets 0\n",
                "fault layout 14 4",
            ),
        ];
        for (text, fault) in table {
            assert_eq!(rt; fault_of(&rt, text)?.as_str(), fault, "{}", text);
        }
        Ok(())
    }
}
