// The steps of one node's work in a cycle, on its four places.
ghost use Rattle.std.specs.Prelude.{◌≡◌, ◌+◌, ◌*◌, ◌<◌, None, slice_set};
ghost use Rattle.fabric.specs.Ports.{place_of, port_of};
ghost use Rattle.switch.specs.Switches.{at};
ghost use Rattle.network.specs.Cycle.{in_slot_order, wish_of};
ghost use Rattle.network.specs.Computed.{due as is_due, better as is_better, best as is_best, ahead as is_ahead, gap as is_gap};
ghost use Rattle.calls.specs.Steps.{none_at, far_place, Spread, Unsent};

use fabric::layout::Layout;
use fabric::parts::{Flit, Port, SLOTS};
use switch::rank::Rank;

// Whether no flit stands in any of the places.
pub(crate) fn are_empty(places: [Option<Flit>; 4]) -> bool
    ensures { result ≡ none_at (at places) }
{
    matches!(places, [None, None, None, None])
}

// The flit in a place, if it is destined for this node.
fn due(node: usize, place: Option<Flit>) -> Option<Flit>
    ensures { result ≡ is_due node place }
{
    place.filter(|flit| usize::from(flit.destination) == node)
}

// A golden flit goes before an ordinary one, and before a golden one of a higher number.
fn ahead(golden: usize, one: Flit, other: Flit) -> bool
    ensures { result ≡ is_ahead golden one other }
{
    Rank::of(one, golden) < Rank::of(other, golden)
}

fn better(
    golden: usize,
    found: Option<(Port, Flit)>,
    at_port: Port,
    place: Option<Flit>,
) -> Option<(Port, Flit)>
    ensures { result ≡ is_better golden found at_port place }
{
    match place {
        Some(flit) if found.is_none_or(|(_, best)| ahead(golden, flit, best)) => {
            Some((at_port, flit))
        }
        _ => found,
    }
}

// Which flit a node ejects, and from which place.
pub(crate) fn best(golden: usize, node: usize, places: [Option<Flit>; 4]) -> Option<(Port, Flit)>
    ensures { result ≡ is_best golden (λ p. is_due node (at places p)) }
{
    let mut found = None;
    for (k, place) in places.iter().enumerate() {
        found = better(golden, found, Port::ALL[k], due(node, *place));
    }
    found
}

// The first empty place.
pub(crate) fn gap(places: [Option<Flit>; 4]) -> Option<Port>
    ensures { result ≡ is_gap (at places) }
{
    places
        .iter()
        .position(|place| place.is_none())
        .map(|k| Port::ALL[k])
}

// The places with one of them changed.
pub(crate) fn with(
    mut places: [Option<Flit>; 4],
    at_port: Port,
    held: Option<Flit>,
) -> [Option<Flit>; 4]
    ensures { result ≡ slice_set places (place_of at_port) held }
{
    places[at_port.index()] = held;
    places
}

fn wish<L: Layout>(layout: &L, node: usize, place: Option<Flit>) -> Option<Port>
    ensures { result ≡ wish_of (L.plan layout.now) node place }
{
    place.and_then(|flit| layout.wish(node, usize::from(flit.destination)))
}

pub(crate) fn wishes<L: Layout>(
    layout: &L,
    node: usize,
    places: [Option<Flit>; 4],
) -> [Option<Port>; 4]
    ensures { result ≡ in_slot_order (λ p. wish_of (L.plan layout.now) node (at places p)) }
{
    places.map(|place| wish(layout, node, place))
}

// The place in the table of slots that a node's port leads to.
fn far<L: Layout>(layout: &L, node: usize, k: usize) -> usize
    requires { (node < (L.plan layout.now).nodes) × (k < 4) }
    ensures is { result ≡ far_place (L.plan layout.now) node (port_of k) }
    ensures below { result < 256 }
{
    layout.far_end(node, Port::ALL[k]).number()
}

// Each flit goes to its port's far end. Where none leaves, nothing is written: the far end is empty, and no other node sends there.
pub(crate) fn spread<L: Layout>(
    layout: &L,
    node: usize,
    leaving: [Option<Flit>; 4],
    slots: &mut [Option<Flit>; SLOTS],
)
    requires known { node < (L.plan layout.now).nodes }
    requires unsent { Unsent (L.plan layout.now) node slots.old }
    ensures { Spread (L.plan layout.now) node leaving slots.old slots.new }
{
    for (k, flit) in leaving.iter().enumerate() {
        if flit.is_some() {
            let to = far(layout, node, k);
            slots[to] = *flit;
        }
    }
}
