// The loop of a run: one place, taken apart into locals, into which each step stores; no copy of it is made in a turn.
ghost use Rattle.std.specs.Prelude.{◌≡◌, ◌≤◌, ◌==◌, count_by};
ghost use Rattle.decide.specs.Ways.{rule_in};
ghost use Rattle.machine.specs.Walk.{spot_at, placed_at, stand_of, go_of, Goes};

use crate::Ran;
use decide::{Move, Spot, decide};
use place::{CALLED, Place};
use refusals::Refusal;
use ways::{label_of, side_of, way_to};

// How many frames of these kinds are calls.
pub(crate) fn calls(kinds: &[u16]) -> usize
    ensures { result ≡ count_by (λ kind. kind == 4) kinds.now }
{
    kinds.iter().filter(|kind| **kind == CALLED).count()
}

// The place where a move led, with these frames.
fn placed(at: Move, kinds: [u16; 1104], labels: [u16; 1104]) -> Place
    ensures { result ≡ placed_at at kinds labels }
{
    Place {
        direction: side_of(at.way),
        a: at.a,
        b: label_of(at.way),
        count: at.depth % 4096,
        kinds,
        labels,
    }
}

// Where the next step stands.
fn spot(at: &Move) -> Spot
    ensures { result ≡ spot_at at.now }
{
    Spot {
        way: at.way,
        depth: at.depth,
    }
}

// At most n steps from a place of which so many frames are calls. What a step moves stays in registers. (The frames in arrays of
// their own take a tenth off the time of two workloads, beside those of the place.)
#[inline(never)]
pub(crate) fn go(
    bytes: &[u8; 32784],
    map: &[u16; 14336],
    arrays: &[u16; 32],
    cells: &mut [i32; 2048],
    place: Place,
    calls: usize,
    n: u32,
) -> Ran
    requires { (place.count ≤ 1104) × (calls ≤ 1104) }
    ensures { Goes (go_of (rule_in bytes.now map.now arrays.now) n (stand_of place) calls cells.old 0) result cells.new }
{
    let mut kinds = place.kinds;
    let mut labels = place.labels;
    let mut at = Move {
        way: usize::from(way_to(place.b, place.direction)),
        a: place.a,
        depth: 4096 * calls + place.count,
    };
    for made in 0..n {
        let here = spot(&at);
        match decide(here, &mut kinds, &mut labels, bytes, map, arrays, cells) {
            Ok(next) => at = next,
            Err(reason) => {
                return Ran {
                    told: Err(Refusal::at(reason, 0)),
                    steps: made,
                    place: placed(at, kinds, labels),
                };
            }
        }
    }
    Ran {
        told: Ok(()),
        steps: n,
        place: placed(at, kinds, labels),
    }
}
