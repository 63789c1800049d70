// The first pass over a file's records: what each record's own kind says, and the record before it.
ghost use Rattle.std.specs.Prelude.{◌≡◌, ◌+◌, ◌^◌, ◌<◌, ◌≤◌, length};
ghost use Rattle.table.specs.Table.{blank, noted, placed, frame_no, before, opener, outside, begun, ended, inside, opened, turned, closed, entered, next_owner, filled, labelled, part_number};

use crate::label::Label;
use records::kind::Kind;
use sections::{
    FIRST, HEAD, KIND, LABELS, LAST, MIDDLE, OFFSET, OPEN, OWNER, PROCEDURES, SIZE, TAIL,
};

// The part of a construct that a frame stands for: an IF's true or false branch, a FROM's s1 or s2.
#[derive(Clone, Copy)]
enum Part {
    Then,
    Else,
    First,
    Second,
}

// A table with nothing in it.
#[tactic(auto, unfolding(crate::specs::Table::blank))]
pub fn blank() -> [u16; SIZE]
    ensures { result ≡ blank }
{
    [0; SIZE]
}

// OFFSET, KIND and OWNER of record x.
#[tactic(auto, unfolding(crate::specs::Table::noted))]
fn note(table: &mut [u16; SIZE], x: Label, q: usize, at: usize, kind: usize)
    requires { (q ≤ 1024) × (kind < 2 ^ 16) }
    ensures { table.new ≡ noted table.old x.number q at kind }
{
    table[OFFSET + x.number] = (at % 65536) as u16;
    table[KIND + x.number] = kind as u16;
    table[OWNER + x.number] = q as u16;
}

// HEAD and OPEN of record x.
fn place(table: &mut [u16; SIZE], x: Label, head: u16, frame: u16)
    ensures { table.new ≡ placed table.old x.number head frame }
{
    table[HEAD + x.number] = head;
    table[OPEN + x.number] = frame;
}

// The frame that is open before record x: OPEN of the record before it; of the first an entry that is still 0.
fn before(table: &[u16; SIZE], x: Label) -> u16
    ensures { result ≡ before table.now x.number }
{
    table[OPEN - 1 + x.number]
}

// The label of the IF or FROM of the innermost construct that is open before record x.
fn opener(table: &[u16; SIZE], x: Label) -> Label
    ensures { result.number ≡ opener table.now x.number }
{
    Label {
        number: (usize::from(before(table, x)) + LABELS - 1) % LABELS,
    }
}

// The frame of this part of the construct whose IF or FROM is head, as OPEN has it.
fn frame(part: Part, head: Label) -> u16
    ensures { result ≡ frame_no (part_number part) head.number }
{
    (1 + (LABELS * part as usize + head.number)) as u16
}

// NAMES.
#[tactic(auto, unfolding(crate::specs::Table::outside))]
fn outside(table: &mut [u16; SIZE], x: Label)
    ensures { table.new ≡ outside table.old x.number }
{
    place(table, x, 0, 0);
}

// BEGIN.
#[tactic(auto, unfolding(crate::specs::Table::begun))]
fn begins(table: &mut [u16; SIZE], x: Label, q: usize)
    ensures { table.new ≡ begun table.old x.number q }
{
    outside(table, x);
    table[FIRST + q % PROCEDURES] = x.number as u16;
}

// END.
#[tactic(auto, unfolding(crate::specs::Table::ended))]
fn ends(table: &mut [u16; SIZE], x: Label, q: usize)
    ensures { table.new ≡ ended table.old x.number q }
{
    outside(table, x);
    table[LAST + q % PROCEDURES] = x.number as u16;
}

// SET, CALL, UNCALL, SKIP.
#[tactic(auto, unfolding(crate::specs::Table::inside))]
fn inside(table: &mut [u16; SIZE], x: Label)
    ensures { table.new ≡ inside table.old x.number }
{
    let frame = before(table, x);
    place(table, x, 0, frame);
}

// IF or FROM opens the frame of this part.
#[tactic(auto, unfolding(crate::specs::Table::opened))]
fn opens(table: &mut [u16; SIZE], x: Label, part: Part)
    ensures { table.new ≡ opened table.old x.number (part_number part) }
{
    place(table, x, x.number as u16, frame(part, x));
}

// ELSE or LOOP turns the innermost frame into that of this part.
#[tactic(auto, unfolding(crate::specs::Table::turned))]
fn turns(table: &mut [u16; SIZE], x: Label, part: Part)
    ensures { table.new ≡ turned table.old x.number (part_number part) }
{
    let head = opener(table, x);
    place(table, x, head.number as u16, frame(part, head));
    table[MIDDLE + head.number] = x.number as u16;
}

// FI or UNTIL closes the innermost frame.
#[tactic(auto, unfolding(crate::specs::Table::closed))]
fn closes(table: &mut [u16; SIZE], x: Label)
    ensures { table.new ≡ closed table.old x.number }
{
    let head = opener(table, x);
    let outer = before(table, head);
    place(table, x, head.number as u16, outer);
    table[TAIL + head.number] = x.number as u16;
}

// What the record's kind says; a record of none is as one inside.
#[tactic(auto, using(crate::proofs::Stores::kinds))]
fn enter(table: &mut [u16; SIZE], x: Label, q: usize, number: usize)
    ensures { table.new ≡ entered table.old x.number q number }
{
    let Some(kind) = Kind::of(number) else {
        inside(table, x);
        return;
    };
    match kind {
        Kind::Names => outside(table, x),
        Kind::Begin => begins(table, x, q),
        Kind::End => ends(table, x, q),
        Kind::If => opens(table, x, Part::Then),
        Kind::Else => turns(table, x, Part::Else),
        Kind::From => opens(table, x, Part::First),
        Kind::Loop => turns(table, x, Part::Second),
        Kind::Fi | Kind::Until => closes(table, x),
        Kind::Set | Kind::Call | Kind::Uncall | Kind::Skip => inside(table, x),
    }
}

// The procedure that the next record lies in.
#[tactic(auto, using(crate::proofs::Stores::owners))]
fn next_owner(q: usize, number: usize) -> usize
    requires { q ≤ 1024 }
    ensures { (result ≡ next_owner q number) × (result ≤ q + 1) }
{
    let Some(kind) = Kind::of(number) else {
        return q;
    };
    match kind {
        Kind::End => q + 1,
        _ => q,
    }
}

// All records that have labels; how many they are.
#[tactic(auto, using(crate::proofs::Loops::left_stops, crate::proofs::Loops::left_full))]
pub fn fill(file: &[u8], table: &mut [u16; SIZE]) -> usize
    ensures { ((result ≡ length (labelled file.now)) × (result ≤ 1024)) × (table.new ≡ filled file.now (labelled file.now) 0 0 table.old) }
{
    let mut q: usize = 0;
    let mut at: usize = 0;
    for number in 0..LABELS {
        if at >= file.len() {
            return number;
        }
        let x = Label { number };
        let kind = records::walk::kind_at(file, at);
        note(table, x, q, at, kind);
        enter(table, x, q, kind);
        q = next_owner(q, kind);
        at = records::walk::next_at(file, at);
    }
    LABELS
}
