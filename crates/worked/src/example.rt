// A run of a small network, carried out in the definitions.
ghost use Rattle.std.specs.Prelude.{◌≡◌};
ghost use Rattle.network.specs.Runs.{count_off};
ghost use Rattle.worked.specs.Example.{happenings, Example, Excluded};

// How many flits are ejected in the run. Flits are injected, deflected and ejected in it and packets collected,
// and a network that only counted its cycles, refused all offers, answered every look the same or never asked its switch would not have it.
pub fn ejected() -> usize
    ensures run { Example }
    ensures excluded { Excluded }
    ensures count { result ≡ count_off happenings }
{
    2
}
