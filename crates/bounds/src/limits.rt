// How late a word can be.
ghost use Rattle.std.specs.Prelude.{◌≡◌, IfOk};
ghost use Rattle.fabric.specs.Refusals.{shown};
ghost use Rattle.fabric.specs.Verdicts.{granting};
ghost use Rattle.bounds.specs.SetUp.{set_up_verdict};
ghost use Rattle.bounds.specs.Lateness.{limits_of, Shortest};

use super::settings::Settings;
use fabric::layout::Layout;
use fabric::refusal::Refusal;

#[derive(Clone, Copy, PartialEq, Eq, Debug)]
pub struct Limits {
    pub nodes: usize,
    pub reach: usize,
    // all tickets of the network
    pub tickets: usize,
    // the smallest lawful epoch for packets of so many words
    pub epoch: usize,
    // a flit is ejected within so many cycles of being injected
    pub latest: usize,
}

impl Limits {
    pub fn of<L: Layout>(layout: &L, settings: Settings) -> Result<Limits, Refusal>
        ensures exact { shown result ≡ granting (λ _. limits_of (L.plan layout.now) settings) (set_up_verdict (L.plan layout.now) settings) }
        ensures shortest { IfOk result (λ l. Shortest (L.plan layout.now) settings l.epoch) }
    {
        settings.judge(layout)?;
        let nodes = layout.nodes();
        let reach = layout.reach();
        let tickets = nodes * settings.tickets;
        Ok(Limits {
            nodes,
            reach,
            tickets,
            epoch: settings.words * (reach + 1),
            latest: (tickets + 1) * settings.epoch,
        })
    }
}

#[cfg(test)]
mod tests {
    use super::*;
    use fabric::mesh::Mesh;
    use std::test::Fail;

    // The latest ejection in a mesh, or the number of the refusal.
    fn latest(
        mesh: &Mesh,
        tickets: usize,
        words: usize,
        epoch: usize,
        seed: usize,
    ) -> Result<usize, u8> {
        let settings = Settings {
            tickets,
            words,
            epoch,
            seed,
        };
        Limits::of(mesh, settings)
            .map(|limits| limits.latest)
            .map_err(|refusal| refusal.number())
    }

    #[test]
    fn boundaries(rt: HostRuntime) -> Result<(), Fail> {
        let mesh = Mesh::new(3, 2)?;
        assert_eq!(rt; latest(&mesh, 1, 2, 8, 1), Ok(56));
        assert_eq!(rt; latest(&mesh, 8, 4, 4096, 65535), Ok(200704));
        assert_eq!(rt; latest(&mesh, 1, 2, 7, 1), Err(2));
        assert_eq!(rt; latest(&mesh, 1, 2, 4097, 1), Err(2));
        assert_eq!(rt; latest(&mesh, 0, 2, 7, 0), Err(1));
        assert_eq!(rt; latest(&mesh, 9, 1, 8, 1), Err(1));
        assert_eq!(rt; latest(&mesh, 1, 5, 4096, 1), Err(1));
        assert_eq!(rt; latest(&mesh, 1, 2, 8, 0), Err(3));
        assert_eq!(rt; latest(&mesh, 1, 2, 8, 65536), Err(3));
        Ok(())
    }
}
