// What a SET does to the store: the index is evaluated and tested first, then the expression; the cell is written last.
ghost use Rattle.std.specs.Prelude.{◌≡◌};
ghost use Rattle.moves.specs.Stores.{applied};
ghost use Rattle.decide.specs.Sets.{worked, Left, set_entry};
ghost use Rattle.decide.specs.Ways.{set_cell};

use evaluate::{amount, entry_of};
use refusals::Reason;

fn apply(o: usize, x: i32, v: i32) -> i32
    ensures { result ≡ applied o x v }
{
    match o {
        0 => values::sum(x, v),
        1 => values::difference(x, v),
        _ => values::exclusive(x, v),
    }
}

// Writes the cell; a number that no cell has writes nothing.
fn put(store: &mut [i32], cell: usize, o: usize, v: i32)
    ensures { store.new ≡ worked store.old cell o v }
{
    if cell < store.len() {
        store[cell] = apply(o, store[cell], v);
    }
}

// The SET of a cell, to what stands at `at`, or what stops it, with the store untouched.
pub fn set_cell(
    bytes: &[u8; 32784],
    at: usize,
    o: usize,
    cell: usize,
    arrays: &[u16; 32],
    cells: &mut [i32; 2048],
) -> Result<(), Reason>
    ensures { Left (set_cell bytes.now at cell o arrays.now cells.old) cells.old result cells.new }
{
    let mut p = at;
    let v = amount(bytes, &mut p, cells, arrays)?;
    put(cells, cell, o, v);
    Ok(())
}

// The same of an entry of array a: its index stands at `at`.
pub fn set_entry(
    bytes: &[u8; 32784],
    at: usize,
    o: usize,
    a: usize,
    arrays: &[u16; 32],
    cells: &mut [i32; 2048],
) -> Result<(), Reason>
    ensures { Left (set_entry bytes.now at a o arrays.now cells.old) cells.old result cells.new }
{
    let mut p = at;
    let i = amount(bytes, &mut p, cells, arrays)?;
    match entry_of(arrays, a, i) {
        Some(cell) => set_cell(bytes, p, o, cell, arrays, cells),
        None => Err(Reason::BadIndex),
    }
}
