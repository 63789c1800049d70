// The machine: the two starts, a step forward and back, a run of n steps forward and back. Every function is total.
#![tactic(auto)]

ghost use Rattle.std.specs.Prelude.{◌≡◌, ◌≤◌};
ghost use Rattle.moves.specs.Step.{step as forward, step_back};
ghost use Rattle.moves.specs.Runs.{run as running, run_back};
ghost use Rattle.machine.specs.Answers.{StepSays, RunSays, StartSays, direction};
ghost use Rattle.machine.specs.Whole.{staying, Copied, CheckedRun, start_of};

use place::Place;
use program::Counts;
use refusals::{Reason, Refusal};

mod copies;
mod walk;

// A step's answer; a refused one has the place given.
#[derive(Drop)]
pub struct Stepped {
    pub told: Result<(), Refusal>,
    pub place: Place,
}

// A run's answer: whether all steps were made, how many were, and the last place.
#[derive(Drop)]
pub struct Ran {
    pub told: Result<(), Refusal>,
    pub steps: u32,
    pub place: Place,
}

// Refused before the first step. (Inline it would put more places into the frame of `checked`.)
#[inline(never)]
fn stays(refusal: Refusal, place: Place) -> Ran
    ensures { result ≡ staying refusal place }
{
    Ran {
        told: Err(refusal),
        steps: 0,
        place,
    }
}

// The steps, on copies of the file and the store; the cells are copied back.
#[inline(never)]
fn went(
    file: &[u8],
    table: &[u16; 9344],
    records: usize,
    place: Place,
    store: &mut [i32],
    n: u32,
) -> Ran
    requires { place.count ≤ 1104 }
    ensures { Copied file.now table.now records place store.old n result store.new }
{
    let mut bytes = [0; 32784];
    copies::lay(file, &mut bytes);
    let arrays = program::arrays::arrays(file);
    let map = ways::map::map(&bytes, table, records);
    let calls = walk::calls(&place.kinds[..place.count]);
    let mut cells = [0; 2048];
    copies::lay(store, &mut cells);
    let ran = walk::go(&bytes, &map, &arrays, &mut cells, place, calls, n);
    copies::lay(&cells, store);
    ran
}

// A run of a program that is accepted: 20, 21, then the steps.
#[inline(never)]
fn checked(file: &[u8], counts: Counts, place: Place, store: &mut [i32], n: u32) -> Ran
    ensures { CheckedRun file.now counts place store.old n result store.new }
{
    if store.len() != counts.cells {
        return stays(Refusal::at(Reason::WrongSize, 0), place);
    }
    let table = table::table(file);
    if !fits::fits(file, &table, counts.records, place) {
        return stays(Refusal::at(Reason::Unfit, 0), place);
    }
    went(file, &table, counts.records, place, store, n)
}

// A run of at most n steps forward.
#[inline(never)]
pub fn run(file: &[u8], place: Place, store: &mut [i32], n: u32) -> Ran
    ensures { RunSays running file.now place store.old n result.told result.steps result.place store.new }
{
    match program::check(file) {
        Err(refusal) => stays(refusal, place),
        Ok(counts) => checked(file, counts, place, store, n),
    }
}

// A run of at most n steps back.
pub fn run_back(file: &[u8], place: Place, store: &mut [i32], n: u32) -> Ran
    ensures { RunSays run_back file.now place store.old n result.told result.steps result.place store.new }
{
    let ran = run(file, place.turned(), store, n);
    Ran {
        place: ran.place.turned(),
        ..ran
    }
}

// A step forward.
pub fn step(file: &[u8], place: Place, store: &mut [i32]) -> Stepped
    ensures { StepSays forward file.now place store.old result.told result.place store.new }
{
    let Ran { told, place, .. } = run(file, place, store, 1);
    Stepped { told, place }
}

// A step back.
pub fn back(file: &[u8], place: Place, store: &mut [i32]) -> Stepped
    ensures { StepSays step_back file.now place store.old result.told result.place store.new }
{
    let Ran { told, place, .. } = run_back(file, place, store, 1);
    Stepped { told, place }
}

// The start of a program that is accepted.
fn begun(file: &[u8], up: bool) -> Place
    ensures { result ≡ start_of file.now up }
{
    let table = table::table(file);
    let d = u8::from(up);
    let a = ways::gate(&table, 0, d);
    let b = ways::along(&table, d, a);
    Place::blank().moved(d, a, b)
}

// Where a program starts, going down or up.
// Stays: (a) the bool: `StartSays` speaks of `direction up`, and its callers have a bool.
pub fn start(file: &[u8], up: bool) -> Result<Place, Refusal>
    ensures { StartSays file.now (direction up) result }
{
    program::check(file)?;
    Ok(begun(file, up))
}
