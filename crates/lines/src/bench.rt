// What the lines set and move: a program, a store and a place.
ghost use Rattle.std.specs.Prelude.{◌≤◌};

use place::Place;

// More bytes than any program of the cases has.
const ROOM: usize = 33000;

// More cells than any store of the cases has.
const CELLS: usize = 2200;

// The program is the first `size` bytes, the store the first `count` cells.
// Stays: (a) no heap and fixed memory: how long each is, a line says.
#[derive(Drop)]
pub(crate) struct Bench {
    pub(crate) file: [u8; ROOM],
    pub(crate) size: usize,
    pub(crate) cells: [i32; CELLS],
    pub(crate) count: usize,
    pub(crate) place: Place,
    ghost in_room: { (size ≤ 33000) × (count ≤ 2200) },
}

impl Bench {
    // No program, no store and the blank place.
    pub(crate) fn bare() -> Self {
        Bench {
            file: [0; ROOM],
            size: 0,
            cells: [0; CELLS],
            count: 0,
            place: Place::blank(),
        }
    }
}
