// What an expression is worth in a store: document 01, 'Values'. The bytes are a program's, checked or not: nothing is read from 32,768 on,
// nor more than 16 deep.
#![tactic(auto)]

ghost use Rattle.std.specs.Prelude.{◌≡◌, ◌+◌, ◌<◌, ◌≤◌, pos, get_or, Bool, true};
ghost use Rattle.codes.specs.Codes.{word16};
ghost use Rattle.codes.specs.Numbers.{cell_at};
ghost use Rattle.expr.specs.Bytes.{up_to};
ghost use Rattle.evaluate.specs.Answers.{arrays_of, entry_of, LeafSays, worth_at, read_at, both_at, OnTheWay, WorthSays, judged, Simple};

use refusals::Reason;

// Where the bytes of a program end at the latest.
const ROOM: usize = 32768;

// 'Depth at most 16.'
const DEPTH: usize = 16;

// The first bytes of an array read and of an operator; below them are those of a constant and a scalar.
const READ: usize = 2;

const OPERATOR: usize = 3;

// The cell i, 0 past the end.
fn cell(cells: &[i32], i: usize) -> i32
    ensures { result ≡ get_or cells.now i (pos 0) }
{
    cells.get(i).copied().unwrap_or(0)
}

// The cell of array a at an index; none outside it. The bits of a negative index are above every length.
pub fn entry_of(arrays: &[u16; 32], a: usize, index: i32) -> Option<usize>
    ensures { result ≡ entry_of (arrays_of arrays.now) a index }
{
    if 16 <= a {
        return None;
    }
    let i = values::to_bits(index) as usize;
    if i < arrays[a + 16] as usize {
        return Some(arrays[a] as usize + i);
    }
    None
}

// Stays: (b) `one`, `two` and `four` beside those of `codes`: with a test of the end at each read a run takes a quarter more.
// The byte at i. An expression begins before 32,768 and the array is longer, so that no read here asks where it ends.
fn one(bytes: &[u8; 32784], i: usize) -> usize
    requires { i < 32784 }
    ensures { (result ≡ get_or bytes.now i 0) × (result < 256) }
{
    bytes[i] as usize
}

// The u16 at i.
fn two(bytes: &[u8; 32784], i: usize) -> usize
    requires { i + 1 < 32784 }
    ensures { (result ≡ word16 bytes.now i) × (result < 65536) }
{
    one(bytes, i) + 256 * one(bytes, i + 1)
}

// The i32 at i.
fn four(bytes: &[u8; 32784], i: usize) -> i32
    requires { i + 3 < 32784 }
    ensures { result ≡ cell_at bytes.now i }
{
    values::from_bits((two(bytes, i) + 65536 * two(bytes, i + 2)) as u32)
}

// Stays: (d) the bound of a position in three contracts of the circle: a type for it would be opened at each sum.
// What the constant or scalar at `*at` holds; `*at` is moved behind it.
fn leaf(bytes: &[u8; 32784], at: &mut usize, cells: &[i32; 2048]) -> i32
    requires { at.old < 32768 }
    ensures { LeafSays bytes.now at.old cells.now result at.new }
{
    let p = *at;
    if one(bytes, p) == 0 {
        *at = p + 5;
        return four(bytes, p + 1);
    }
    *at = p + 3;
    cell(cells, two(bytes, p + 1))
}

// What the expression at `*at`, at most so deep, is worth; where that is a value, `*at` is moved behind it.
// The four that follow call each other, and the depth falls by one from an expression to what stands inside it. This one is small, and is
// copied to where an operand is evaluated: a constant or scalar, as nearly every operand is, needs no call.
#[inline(always)]
#[cycle(compound_operated_read_value)]
fn value(
    bytes: &[u8; 32784],
    at: &mut usize,
    cells: &[i32; 2048],
    arrays: &[u16; 32],
    depth: usize,
) -> Result<i32, Reason>
    ensures { OnTheWay (worth_at arrays.now cells.now (up_to 32768 depth bytes.now at.old)) (up_to 32768 depth bytes.now at.old).next result at.new }
{
    if depth == 0 || ROOM <= *at {
        return Ok(0);
    }
    if one(bytes, *at) < READ {
        return Ok(leaf(bytes, at, cells));
    }
    compound(bytes, at, cells, arrays, depth)
}

// The same of an array read or an operator.
#[cycle(compound_operated_read_value)]
fn compound(
    bytes: &[u8; 32784],
    at: &mut usize,
    cells: &[i32; 2048],
    arrays: &[u16; 32],
    depth: usize,
) -> Result<i32, Reason>
    requires { (depth ≡ 0 → ⊥) × ((at.old < 32768) × (2 ≤ get_or bytes.now at.old 0)) }
    ensures { OnTheWay (worth_at arrays.now cells.now (up_to 32768 depth bytes.now at.old)) (up_to 32768 depth bytes.now at.old).next result at.new }
{
    if one(bytes, *at) == READ {
        return read(bytes, at, cells, arrays, depth - 1);
    }
    operated(bytes, at, cells, arrays, depth - 1)
}

// 'An array read evaluates its own index, then tests it, then reads.'
#[cycle(compound_operated_read_value)]
fn read(
    bytes: &[u8; 32784],
    at: &mut usize,
    cells: &[i32; 2048],
    arrays: &[u16; 32],
    depth: usize,
) -> Result<i32, Reason>
    requires { at.old < 32768 }
    ensures { OnTheWay (read_at arrays.now cells.now (word16 bytes.now (at.old + 1)) (up_to 32768 depth bytes.now (at.old + 3))) (up_to 32768 depth bytes.now (at.old + 3)).next result at.new }
{
    let a = two(bytes, *at + 1);
    *at += 3;
    let i = value(bytes, at, cells, arrays, depth)?;
    match entry_of(arrays, a, i) {
        Some(c) => Ok(cell(cells, c)),
        None => Err(Reason::BadIndex),
    }
}

// 'Both sides are always evaluated, left first.'
#[cycle(compound_operated_read_value)]
fn operated(
    bytes: &[u8; 32784],
    at: &mut usize,
    cells: &[i32; 2048],
    arrays: &[u16; 32],
    depth: usize,
) -> Result<i32, Reason>
    requires { at.old < 32768 }
    ensures { OnTheWay (both_at arrays.now cells.now (get_or bytes.now (at.old + 1) 0) (up_to 32768 depth bytes.now (at.old + 2)) (up_to 32768 depth bytes.now (up_to 32768 depth bytes.now (at.old + 2)).next)) (up_to 32768 depth bytes.now (up_to 32768 depth bytes.now (at.old + 2)).next).next result at.new }
{
    let o = bytes[*at + 1];
    *at += 2;
    let l = value(bytes, at, cells, arrays, depth)?;
    let r = value(bytes, at, cells, arrays, depth)?;
    match values::apply(o, l, r) {
        Some(v) => Ok(v),
        None => Err(Reason::ZeroDivisor),
    }
}

// What the expression at `*at` is worth, for what a SET adds and for its index: `*at` is moved behind it, or stays where it is
// refused.
pub fn amount(
    bytes: &[u8; 32784],
    at: &mut usize,
    cells: &[i32; 2048],
    arrays: &[u16; 32],
) -> Result<i32, Reason>
    ensures { WorthSays arrays.now cells.now at.old (up_to 32768 16 bytes.now at.old) result at.new }
{
    let start = *at;
    let worth = value(bytes, at, cells, arrays, DEPTH);
    if worth.is_err() {
        *at = start;
    }
    worth
}

// Whether an operator stands at `at` whose left side is a constant or scalar.
fn is_simple(bytes: &[u8; 32784], at: usize) -> bool
    ensures { Simple bytes.now at result }
{
    at <= ROOM - 8 && one(bytes, at) == OPERATOR && one(bytes, at + 2) < READ
}

// Whether the condition at `at` holds, or what stops it.
// It is copied to each act that asks it, so that the processor foresees each by itself.
// Stays: (b) the way for an operator on two constants or scalars, as most conditions are. Without it counting and padded have 0.7 of the speed.
#[inline(always)]
pub fn truth(
    bytes: &[u8; 32784],
    at: usize,
    cells: &[i32; 2048],
    arrays: &[u16; 32],
) -> Result<bool, Reason>
    ensures { result ≡ judged (worth_at arrays.now cells.now (up_to 32768 16 bytes.now at)) }
{
    if is_simple(bytes, at) {
        let mut p = at + 2;
        let l = leaf(bytes, &mut p, cells);
        if one(bytes, p) < READ {
            let r = leaf(bytes, &mut p, cells);
            return match values::apply(bytes[at + 1], l, r) {
                Some(v) => Ok(v != 0),
                None => Err(Reason::ZeroDivisor),
            };
        }
    }
    let mut p = at;
    let worth = value(bytes, &mut p, cells, arrays, DEPTH)?;
    Ok(worth != 0)
}
