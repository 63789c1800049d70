// Sessions of a program: read from a file, and saved as one. Both functions are total, and pass over the file a fixed number of times.
#![tactic(auto)]

ghost use Rattle.std.specs.Prelude.{Ok};
ghost use Rattle.program.specs.Says.{given, Says};
ghost use Rattle.saved.specs.Answers.{ReadSays, SaveSays};

use place::Place;
use program::Counts;
use refusals::{Reason, Refusal};

// A reading for a program that is accepted: 22, 20, 21, then the cells.
fn taken(file: &[u8], counts: Counts, saved: &[u8], store: &mut [i32]) -> Result<Place, Refusal>
    requires { Says file.now (given (Ok counts)) }
    ensures { ReadSays file.now saved.now store.old result store.new }
{
    let Some(place) = session::place_in(saved) else {
        return Err(Refusal::at(Reason::NoSession, 0));
    };
    if session::cells_in(saved) != Some(counts.cells) || store.len() != counts.cells {
        return Err(Refusal::at(Reason::WrongSize, 0));
    }
    let table = table::table(file);
    if !fits::fits(file, &table, counts.records, place) {
        return Err(Refusal::at(Reason::Unfit, 0));
    }
    session::get_cells(saved, store);
    Ok(place)
}

// The place of a session file, its cells into the store.
pub fn read(file: &[u8], saved: &[u8], store: &mut [i32]) -> Result<Place, Refusal>
    ensures { ReadSays file.now saved.now store.old result store.new }
{
    let counts = program::check(file)?;
    taken(file, counts, saved, store)
}

// A save for a program that is accepted: 20, 21, then the bytes, of which there are none where 23 is due.
fn put(
    file: &[u8],
    counts: Counts,
    place: Place,
    store: &[i32],
    buffer: &mut [u8],
) -> Result<usize, Refusal>
    requires { Says file.now (given (Ok counts)) }
    ensures { SaveSays file.now place store.now buffer.old result buffer.new }
{
    if store.len() != counts.cells {
        return Err(Refusal::at(Reason::WrongSize, 0));
    }
    let table = table::table(file);
    if !fits::fits(file, &table, counts.records, place) {
        return Err(Refusal::at(Reason::Unfit, 0));
    }
    session::put_session(place, store, buffer).ok_or(Refusal::at(Reason::NoRoom, 0))
}

// The session file of a place and a store, into the buffer: the bytes written.
pub fn save(file: &[u8], place: Place, store: &[i32], buffer: &mut [u8]) -> Result<usize, Refusal>
    ensures { SaveSays file.now place store.now buffer.old result buffer.new }
{
    let counts = program::check(file)?;
    put(file, counts, place, store, buffer)
}
