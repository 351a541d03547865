// What every run of a network's calls keeps.
ghost use Rattle.std.specs.Prelude.{◌≡◌, ◌+◌};
ghost use Rattle.fabric.specs.Refusals.{shown};
ghost use Rattle.fabric.specs.Verdicts.{granting};
ghost use Rattle.bounds.specs.SetUp.{set_up_verdict};
ghost use Rattle.network.specs.Promises.{AlwaysKept, off_by};

use bounds::limits::Limits;
use bounds::settings::Settings;
use fabric::layout::Layout;
use fabric::refusal::Refusal;

// Once so many cycles are carried out, a flit that was injected in this cycle is ejected, whatever traffic there is.
#[tactic(auto, using(crate::proofs::Kept::kept))]
pub fn off_by<L: Layout>(layout: &L, settings: Settings, entered: u32) -> Result<usize, Refusal>
    ensures exact { shown result ≡ granting (λ _. off_by (L.plan layout.now) settings entered) (set_up_verdict (L.plan layout.now) settings) }
    ensures kept { AlwaysKept }
{
    let limits = Limits::of(layout, settings)?;
    Ok(entered as usize + 1 + limits.latest)
}
