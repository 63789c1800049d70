// The table of a file's records: what a step asks of a label, found once for each call. specs/Table.antt has its sections.
// The first pass is in kinds.rt; here are the second and third: the partners of each record, and the labels that one comes to from it.
#![tactic(auto)]

ghost use Rattle.std.specs.Prelude.{◌≡◌, ◌+◌, suc, pred, ◌≤◌, get_or};
ghost use Rattle.records.specs.Kinds.{kind_of};
ghost use Rattle.table.specs.Table.{share, shared, from_above, from_below, join, joined, table_of};

use label::Label;
use records::kind::Kind;
use sections::{DOWN, HEAD, KIND, LABELS, MIDDLE, SIZE, TAIL, UP};

mod kinds;
mod label;

// MIDDLE and TAIL of record x are those of its construct's IF or FROM.
#[tactic(auto, unfolding(crate::specs::Table::share))]
fn share(table: &mut [u16; SIZE], x: Label)
    ensures { table.new ≡ share table.old x.number }
{
    let head = usize::from(table[HEAD + x.number]) % LABELS;
    let middle = table[MIDDLE + head];
    let tail = table[TAIL + head];
    table[MIDDLE + x.number] = middle;
    table[TAIL + x.number] = tail;
}

// The same for the first n records.
#[tactic(auto, using(crate::proofs::Loops::shared_on, crate::proofs::Loops::shared_done))]
fn share_all(table: &mut [u16; SIZE], n: usize)
    requires { n ≤ 1024 }
    ensures { table.new ≡ shared n 0 table.old }
{
    for number in 0..n {
        share(table, Label { number });
    }
}

// The kind of record x.
fn kind_of(table: &[u16; SIZE], x: Label) -> Option<Kind>
    ensures { result ≡ kind_of (get_or table.now (1024 + x.number) 0) }
{
    Kind::of(usize::from(table[KIND + x.number]))
}

// Where one comes to at record x from above.
#[tactic(auto, using(crate::proofs::Stores::above))]
fn from_above(table: &[u16; SIZE], x: Label) -> u16
    ensures { result ≡ from_above table.now x.number }
{
    let Some(kind) = kind_of(table, x) else {
        return x.number as u16;
    };
    match kind {
        Kind::Else | Kind::Loop => table[TAIL + x.number],
        Kind::Until => table[HEAD + x.number],
        _ => x.number as u16,
    }
}

// Where one comes to at record x from below.
#[tactic(auto, using(crate::proofs::Stores::below))]
fn from_below(table: &[u16; SIZE], x: Label) -> u16
    ensures { result ≡ from_below table.now x.number }
{
    let Some(kind) = kind_of(table, x) else {
        return x.number as u16;
    };
    match kind {
        Kind::Else => table[HEAD + x.number],
        Kind::Loop => table[TAIL + x.number],
        _ => x.number as u16,
    }
}

// DOWN and UP at the gap between two neighbours.
#[tactic(auto, unfolding(crate::specs::Table::join))]
fn join(table: &mut [u16; SIZE], upper: Label, lower: Label)
    requires { lower.number ≡ suc upper.number }
    ensures { table.new ≡ join table.old upper.number }
{
    let down = from_above(table, lower);
    let up = from_below(table, upper);
    table[DOWN + upper.number] = down;
    table[UP + lower.number] = up;
}

// The same for the gaps of the first n records.
#[tactic(auto, using(crate::proofs::Loops::joined_on, crate::proofs::Loops::joined_done))]
fn join_all(table: &mut [u16; SIZE], n: usize)
    requires { n ≤ 1024 }
    ensures { table.new ≡ joined (pred n) 0 table.old }
{
    for number in 1..n {
        join(table, Label { number: number - 1 }, Label { number });
    }
}

// The table of any file; that of a checked one is as proofs/Tabled.antt says.
#[tactic(auto, unfolding(crate::specs::Table::table_of))]
pub fn table(file: &[u8]) -> [u16; SIZE]
    ensures { result ≡ table_of file.now }
{
    let mut table = kinds::blank();
    let n = kinds::fill(file, &mut table);
    share_all(&mut table, n);
    join_all(&mut table, n);
    table
}
