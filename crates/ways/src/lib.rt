// What a run asks of the table of a file: the neighbours of a record, the gates of a procedure, and the map of all that (map.rt).
// A way is a label and a direction in one number: the label, and 1,024 more upwards. Every public function is total.
#![tactic(auto)]

ghost use Rattle.std.specs.Prelude.{◌≡◌};
ghost use Rattle.ways.specs.Looks.{along_of, gate_of, way_to, label_in, side_in};

use sections::{DOWN, FIRST, LABELS, LAST, PROCEDURES, SIZE, UP, entry, look};

pub mod map;
mod side;

// The label one comes to when record y is left in a direction.
// Stays: (a) a direction is a u8 here and below, as in `Place`, which C has.
#[tactic(auto, unfolding(crate::specs::Looks::along_of))]
pub fn along(table: &[u16; SIZE], direction: u8, y: u16) -> u16
    ensures { result ≡ along_of table.now direction y }
{
    let section = if direction == 0 { DOWN } else { UP };
    entry(table, section, y)
}

// The record by which procedure q is entered in a direction.
#[tactic(auto, unfolding(sections::specs::Look::look_in))]
pub fn gate(table: &[u16; SIZE], q: usize, direction: u8) -> u16
    ensures { result ≡ gate_of table.now q direction }
{
    // the table ends here, and the sums below fit
    if 2 * PROCEDURES <= q {
        return 0;
    }
    let section = if direction == 0 { FIRST } else { LAST };
    look(table, section + q)
}

// A way upwards is its label and so much more; no label is so high.
const UPWARDS: u16 = 1024;

// The way of a label in a direction.
#[tactic(auto, unfolding(crate::specs::Looks::way_to))]
pub fn way_to(b: u16, direction: u8) -> u16
    ensures { result ≡ way_to b direction }
{
    if direction == 0 || UPWARDS <= b {
        b
    } else {
        b + UPWARDS
    }
}

// The label of a way, and its direction.
pub fn label_of(way: usize) -> u16
    ensures { result ≡ label_in way }
{
    (way % LABELS) as u16
}

pub fn side_of(way: usize) -> u8
    ensures { result ≡ side_in way }
{
    if way < LABELS { 0 } else { 1 }
}
