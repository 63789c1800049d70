// Program files: the check that answers every file, and the table of its arrays.
#![tactic(auto)]

ghost use Rattle.std.specs.Prelude.{◌≡◌};
ghost use Rattle.program.specs.Check.{cells_of};
ghost use Rattle.program.specs.Says.{given, Says};

use names::{first_own, first_unknown};
use records::reading::walk;
use refusals::{Reason, Refusal};

pub mod arrays;

// A file has at most so many bytes.
const BYTES: usize = 32768;

// What an accepted file has.
#[derive(Clone, Copy)]
pub struct Counts {
    pub records: usize,
    pub procedures: usize,
    pub cells: usize,
}

// The cells that the first record declares: its scalars and its arrays' lengths.
fn cells(file: &[u8]) -> usize
    ensures { result ≡ cells_of file.now }
{
    let arrays = codes::short(file, 6);
    let mut total = codes::short(file, 4);
    for i in 0..arrays {
        total += codes::short(file, 8 + 2 * i);
    }
    total
}

// The document's answer for any file.
pub fn check(file: &[u8]) -> Result<Counts, Refusal>
    ensures { Says file.now (given result) }
{
    if BYTES < file.len() {
        return Err(Refusal::at(Reason::TooLong, 0));
    }
    let walked = walk(file)?;
    order::order(file).map_err(|label| Refusal::at(Reason::Misplaced, label))?;
    let scalars = codes::short(file, 4);
    let arrays = codes::short(file, 6);
    if let Some(label) = first_unknown(file, scalars, arrays, walked.procedures) {
        return Err(Refusal::at(Reason::NotThere, label));
    }
    if let Some(label) = first_own(file) {
        return Err(Refusal::at(Reason::OwnName, label));
    }
    Ok(Counts {
        records: walked.records,
        procedures: walked.procedures,
        cells: cells(file),
    })
}
