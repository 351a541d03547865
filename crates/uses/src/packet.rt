// A packet of two words, from one node to the next.
ghost use Rattle.std.specs.Prelude.{◌≡◌, [], ◌∷◌, Ok};

use bounds::settings::Settings;
use calls::Network;
use fabric::mesh::Mesh;
use fabric::refusal::Refusal;
use line::Line;
use network::event::Event;
use switch::chipper::Chipper;

const SMALL: Settings = Settings {
    tickets: 1,
    words: 2,
    epoch: 4,
    seed: 1,
};

const FROM: usize = 0;

const TO: usize = 1;

// Both words are injected in the first two cycles, and ejected in the second and third.
pub fn two_words() -> Result<[u32; 2], Refusal>
    ensures { result ≡ Ok (7 ∷ 9 ∷ []) }
{
    let mesh = Mesh::new(2, 1)?;
    let mut network = Network::new(mesh, Chipper);
    network.set_up(SMALL)?;
    let sent = [7, 9];
    let mut events = [Event::default(); 8];
    let mut line = Line::new(&mut events);
    let mut received = [0; 2];
    // the collection is granted only if all of these are
    let _ = network.offer(FROM, 0, TO, &sent);
    let _ = network.cycle(&mut line);
    let _ = network.cycle(&mut line);
    let _ = network.cycle(&mut line);
    network.collect(TO, FROM, 0, &mut received)?;
    Ok(received)
}
