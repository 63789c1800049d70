// All that a run asks of the file and the table, found once for each run: an entry for each way in seven sections of 2,048.
ghost use Rattle.std.specs.Prelude.{◌≡◌, ◌<◌};
ghost use Rattle.ways.specs.Looks.{side_number, resumed_of, test_of, act_of, left_at};
ghost use Rattle.ways.specs.Map.{onward_at, gate_at, into_at, cell_act, set_act, act_at, first_at, second_at, expr_at, entry_at, Maps, no_entries};

use crate::side::Side;
use crate::{along, gate, way_to};
use codes::{byte, short};
use sections::{HEAD, KIND, LABELS, MIDDLE, OFFSET, SIZE, TAIL, entry};

// So many entries in all: for each label one in each of fourteen halves of sections.
pub const ENTRIES: usize = 14336;

const HALVES: usize = 14;

// The numbers of kinds of records, as the table has them.
// Stays: (a) `Maps`, and decide/Mapped `mapped`, are of any table: a kind of 0 returns, and one above 13 tests as UNTIL does.
const END: u16 = 3;

const SET: u16 = 4;

const IF: u16 = 5;

const FI: u16 = 7;

const FROM: u16 = 8;

const CALL: u16 = 11;

const UNCALL: u16 = 12;

const SKIP: u16 = 13;

// What a record does, as the map's first section has it. A return is told by its direction, a SET of a cell by its operator.
pub const RETURNS: u16 = 3;

pub const ASSIGNS: u16 = 4;

pub const CHOOSES: u16 = 5;

pub const SETS_ENTRY: u16 = 6;

pub const CLOSES: u16 = 7;

pub const OPENS: u16 = 8;

pub const RETURNS_UP: u16 = 9;

pub const TESTS: u16 = 10;

pub const CALLS: u16 = 11;

pub const SUBTRACTS: u16 = 12;

pub const SKIPS: u16 = 13;

pub const EXCLUDES: u16 = 14;

// No entry.
#[tactic(auto, unfolding(crate::specs::Map::no_entries))]
fn none() -> [u16; ENTRIES]
    ensures { result ≡ no_entries }
{
    [0; ENTRIES]
}

// What a record that tests does.
fn test_of(kind: u16, side: Side) -> u16
    ensures { result ≡ test_of kind (side_number side) }
{
    match kind {
        IF => side.going(CHOOSES, CLOSES),
        FI => side.going(CLOSES, CHOOSES),
        FROM => side.going(OPENS, TESTS),
        _ => side.going(TESTS, OPENS),
    }
}

// What a record does.
fn act_of(kind: u16, side: Side) -> u16
    ensures { result ≡ act_of kind (side_number side) }
{
    match kind {
        SET => ASSIGNS,
        SKIP => SKIPS,
        CALL | UNCALL => CALLS,
        0..=END => RETURNS,
        _ => test_of(kind, side),
    }
}

// "the opposite direction from an UNCALL"
fn resumed(table: &[u16; SIZE], b: u16, side: Side) -> Side
    ensures { side_number result ≡ resumed_of table.now b (side_number side) }
{
    if entry(table, KIND, b) == UNCALL {
        side.other()
    } else {
        side
    }
}

// The record that is left behind record b, where its test does not hold, or does.
// Stays: (d) the bool `fails`: the map asks for both answers of every test, so two functions would differ in one arm.
fn left_at(table: &[u16; SIZE], act: u16, b: u16, side: Side, fails: bool) -> u16
    ensures { result ≡ left_at table.now act b (side_number side) fails }
{
    let middle = entry(table, MIDDLE, b);
    match (act, fails) {
        (CHOOSES, true) => side.going(middle, b),
        (CHOOSES, false) | (OPENS, _) => side.going(b, middle),
        (TESTS, true) => side.going(middle, entry(table, TAIL, b)),
        _ => b,
    }
}

// The way on from record b.
#[tactic(auto, unfolding(crate::specs::Map::onward_at))]
fn onward_at(table: &[u16; SIZE], b: u16, side: Side, fails: bool) -> u16
    ensures { result ≡ onward_at table.now b (side_number side) fails }
{
    let act = act_of(entry(table, KIND, b), side);
    let left = left_at(table, act, b, side, fails);
    let direction = resumed(table, b, side).number();
    way_to(along(table, direction, left), direction)
}

// The record by which the procedure that record b names is entered; and the way from there.
#[tactic(auto, unfolding(crate::specs::Map::gate_at))]
fn gate_at(file: &[u8], table: &[u16; SIZE], b: u16, side: Side) -> u16
    ensures { result ≡ gate_at file.now table.now b (side_number side) }
{
    let q = short(file, usize::from(entry(table, OFFSET, b)) + 4);
    gate(table, q, resumed(table, b, side).number())
}

#[tactic(auto, unfolding(crate::specs::Map::into_at))]
fn into_at(file: &[u8], table: &[u16; SIZE], b: u16, side: Side) -> u16
    ensures { result ≡ into_at file.now table.now b (side_number side) }
{
    let direction = resumed(table, b, side).number();
    way_to(
        along(table, direction, gate_at(file, table, b, side)),
        direction,
    )
}

// What a SET of a cell does, by its operator.
fn cell_act(o: u16) -> u16
    ensures { result ≡ cell_act o }
{
    match o {
        0 => ASSIGNS,
        1 => SUBTRACTS,
        _ => EXCLUDES,
    }
}

// What the SET at `at` does; one of an entry has an act of its own.
fn set_act(file: &[u8], at: usize, side: Side) -> u16
    requires { at < 65536 }
    ensures { result ≡ set_act file.now at (side_number side) }
{
    if byte(file, at + 5) == 0 {
        cell_act(side.operator(byte(file, at + 4) as u16))
    } else {
        SETS_ENTRY
    }
}

// What record b does.
#[tactic(auto, unfolding(crate::specs::Map::act_at))]
fn act_at(file: &[u8], table: &[u16; SIZE], b: u16, side: Side) -> u16
    ensures { result ≡ act_at file.now table.now b (side_number side) }
{
    let kind = entry(table, KIND, b);
    if kind == SET {
        return set_act(file, usize::from(entry(table, OFFSET, b)), side);
    }
    match act_of(kind, side) {
        RETURNS => side.going(RETURNS, RETURNS_UP),
        act => act,
    }
}

// A call's gate, or a SET's operator.
#[tactic(auto, unfolding(crate::specs::Map::first_at))]
fn first_at(file: &[u8], table: &[u16; SIZE], b: u16, side: Side) -> u16
    ensures { result ≡ first_at file.now table.now b (side_number side) }
{
    if entry(table, KIND, b) == SET {
        let o = byte(file, usize::from(entry(table, OFFSET, b)) + 4);
        side.operator(o as u16)
    } else {
        gate_at(file, table, b, side)
    }
}

// The way behind a call's gate, or the number of a SET's cell or array.
#[tactic(auto, unfolding(crate::specs::Map::second_at))]
fn second_at(file: &[u8], table: &[u16; SIZE], b: u16, side: Side) -> u16
    ensures { result ≡ second_at file.now table.now b (side_number side) }
{
    if entry(table, KIND, b) == SET {
        short(file, usize::from(entry(table, OFFSET, b)) + 6) as u16
    } else {
        into_at(file, table, b, side)
    }
}

// Where the expression of record b stands; a SET's behind its operator and target.
#[tactic(auto, unfolding(crate::specs::Map::expr_at))]
fn expr_at(table: &[u16; SIZE], b: u16) -> u16
    ensures { result ≡ expr_at table.now b }
{
    let o = entry(table, OFFSET, b);
    if 32768 <= o {
        o
    } else if entry(table, KIND, b) == SET {
        o + 8
    } else {
        o + 4
    }
}

// The entry of record b in half a section: downwards the even ones, upwards the odd ones. The sections in turn: what the record does;
// the way on from it, where its test holds or there is none, and where it does not hold; a call's gate, and the way from there, or a
// SET's operator, and its cell or array; where its expression stands; the head of its construct.
#[tactic(auto, unfolding(crate::specs::Map::entry_at))]
fn entry_at(file: &[u8], table: &[u16; SIZE], half: usize, b: u16) -> u16
    ensures { result ≡ entry_at file.now table.now half b }
{
    let side = if half % 2 == 0 { Side::Down } else { Side::Up };
    match half {
        0..2 => act_at(file, table, b, side),
        2..4 => onward_at(table, b, side, false),
        4..6 => onward_at(table, b, side, true),
        6..8 => first_at(file, table, b, side),
        8..10 => second_at(file, table, b, side),
        10..12 => expr_at(table, b),
        _ => entry(table, HEAD, b),
    }
}

// The entries of the first n labels; the rest is 0.
#[inline(never)]
#[tactic(auto, using(crate::proofs::MapCases::filled_none, crate::proofs::MapCases::filled_more, crate::proofs::MapCases::filled_all))]
pub fn map(file: &[u8], table: &[u16; SIZE], n: usize) -> [u16; ENTRIES]
    ensures { Maps file.now table.now n result }
{
    let mut map = none();
    for i in 0..HALVES * n.min(LABELS) {
        let half = i % HALVES;
        let b = i / HALVES;
        map[LABELS * half + b] = entry_at(file, table, half, b as u16);
    }
    map
}
