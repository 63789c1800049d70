// What each command answers: the bytes of the new session and the text to print. No file is touched here.
ghost use Rattle.std.specs.Prelude.{◌≤◌, length};
ghost use Rattle.moves.specs.Runs.{run, run_back};
ghost use Rattle.refusals.specs.Numbers.{number_of};
ghost use Rattle.machine.specs.Answers.{direction};
ghost use Rattle.print.specs.Lines.{Text, refused_line};
ghost use Rattle.bench.specs.Answers.{Checks, Starts, Does, Answers, Lent, moved_lines, shown_lines};
ghost use Rattle.bench.specs.Inner.{Telling, Setting, Moving, Counted, Stands, Sound, Saves, Room, RoomOf};
ghost use Rattle.bench.specs.declared.command.Deed.TheVariants.{Set};

use crate::command::Deed;
use machine::Ran;
use place::Place;
use print::TEXT;
use refusals::Refusal;

// One byte more than the longest session that could be sound.
pub(crate) const SESSION: usize = 69961;

const CELLS: usize = 2048;

// How many bytes of the buffer are the new session, where there is one, and how many of the text are said.
#[derive(Clone, Copy)]
pub struct Answer {
    pub written: Option<usize>,
    pub said: usize,
}

fn refused(refusal: Refusal, text: &mut [u8; TEXT]) -> Answer
    ensures { Telling text.old (refused_line (number_of refusal.reason) refusal.label) result text.new }
{
    Answer {
        written: None,
        said: print::put_refused(text, 0, refusal.reason.number(), refusal.label),
    }
}

// `check`
pub(crate) fn checked(file: &[u8], text: &mut [u8; TEXT]) -> usize
    ensures { Checks file.now text.old text.new result }
{
    match program::check(file) {
        Err(refusal) => print::put_refused(text, 0, refusal.reason.number(), refusal.label),
        Ok(counts) => {
            print::put_accepted(text, 0, counts.records, counts.procedures, counts.cells)
        }
    }
}

// Saves a session that cannot be refused, when so many bytes of the text are said.
fn saved(
    file: &[u8],
    place: Place,
    store: &[i32],
    said: usize,
    buffer: &mut [u8; SESSION],
) -> Answer
    requires { Stands file.now place store.now }
    ensures { Saves file.now place store.now buffer.old said result buffer.new }
{
    Answer {
        written: saved::save(file, place, store, buffer).ok(),
        said,
    }
}

// The start of a program that is accepted, on zeros.
fn begun(
    file: &[u8],
    up: bool,
    cells: usize,
    buffer: &mut [u8; SESSION],
    text: &mut [u8; TEXT],
) -> Answer
    requires { Counted file.now cells }
    ensures { Starts file.now (direction up) buffer.old text.old result buffer.new text.new }
{
    let store: [i32; CELLS] = words::full(0);
    let place = machine::start(file, up).unwrap();
    let n = print::put_at(text, 0, place.a, place.b, place.direction);
    saved(file, place, &store[..cells], n, buffer)
}

// `start`
pub(crate) fn started(
    file: &[u8],
    up: bool,
    buffer: &mut [u8; SESSION],
    text: &mut [u8; TEXT],
) -> Answer
    ensures starts { Starts file.now (direction up) buffer.old text.old result buffer.new text.new }
    ensures room { Room result (length buffer.new) (length text.new) }
{
    match program::check(file) {
        Err(refusal) => refused(refusal, text),
        Ok(counts) => begun(file, up, counts.cells, buffer, text),
    }
}

fn put_moved(text: &mut [u8; TEXT], steps: u32, reason: u8, place: Place) -> usize
    ensures { Text text.old (moved_lines steps reason place) text.new result }
{
    let i = print::put_steps(text, 0, steps, reason);
    print::put_at(text, i, place.a, place.b, place.direction)
}

// `step` and `back`: where the run ended
fn moved(
    ran: Ran,
    file: &[u8],
    store: &[i32],
    buffer: &mut [u8; SESSION],
    text: &mut [u8; TEXT],
) -> Answer
    requires { Stands file.now ran.place store.now }
    ensures { Moving file.now ran store.now buffer.old text.old result buffer.new text.new }
{
    let place = ran.place;
    let said = put_moved(text, ran.steps, print::reason(ran.told), place);
    saved(file, place, store, said, buffer)
}

// `set`: a cell that is not there is told last
fn set(
    cell: u32,
    value: i32,
    file: &[u8],
    place: Place,
    store: &mut [i32],
    buffer: &mut [u8; SESSION],
) -> Option<Answer>
    requires { Sound file.now place store.old }
    ensures { Setting file.now place store.old buffer.old result buffer.new (Set cell value) }
{
    let i = cell as usize;
    if i >= store.len() {
        return None;
    }
    store[i] = value;
    Some(saved(file, place, store, 0, buffer))
}

// `show`
fn shown(place: Place, store: &[i32], text: &mut [u8; TEXT]) -> Answer
    requires { length store.now ≤ 2048 }
    ensures { Telling text.old (shown_lines place store.now) result text.new }
{
    let i = print::put_at(text, 0, place.a, place.b, place.direction);
    let j = print::put_frames(text, i, &place.kinds, &place.labels, place.count);
    Answer {
        written: None,
        said: print::put_cells(text, j, store),
    }
}

// What is done on a session that was read; no answer where the words were wrong after all.
fn done(
    deed: Deed,
    file: &[u8],
    place: Place,
    store: &mut [i32],
    buffer: &mut [u8; SESSION],
    text: &mut [u8; TEXT],
) -> Option<Answer>
    requires { Sound file.now place store.old }
    ensures { Does file.now place store.old buffer.old text.old result buffer.new text.new deed }
{
    match deed {
        Deed::Step(n) => {
            let ran = machine::run(file, place, store, n);
            Some(moved(ran, file, store, buffer, text))
        }
        Deed::Back(n) => {
            let ran = machine::run_back(file, place, store, n);
            Some(moved(ran, file, store, buffer, text))
        }
        Deed::Set(cell, value) => set(cell, value, file, place, store, buffer),
        Deed::Show => Some(shown(place, store, text)),
    }
}

// The same on the session's bytes, with a store lent for its cells.
fn opened(
    deed: Deed,
    file: &[u8],
    session: &[u8],
    store: &mut [i32],
    buffer: &mut [u8; SESSION],
    text: &mut [u8; TEXT],
) -> Option<Answer>
    requires { Lent file.now store.old }
    ensures { Answers deed file.now session.now buffer.old text.old result buffer.new text.new }
{
    match saved::read(file, session, store) {
        Err(refusal) => Some(refused(refusal, text)),
        Ok(place) => done(deed, file, place, store, buffer, text),
    }
}

// `step`, `back`, `set` and `show`
pub(crate) fn answered(
    deed: Deed,
    file: &[u8],
    session: &[u8],
    buffer: &mut [u8; SESSION],
    text: &mut [u8; TEXT],
) -> Option<Answer>
    ensures answers { Answers deed file.now session.now buffer.old text.old result buffer.new text.new }
    ensures room { RoomOf result (length buffer.new) (length text.new) }
{
    match program::check(file) {
        Err(refusal) => Some(refused(refusal, text)),
        Ok(counts) => {
            let mut store: [i32; CELLS] = words::full(0);
            opened(
                deed,
                file,
                session,
                &mut store[..counts.cells],
                buffer,
                text,
            )
        }
    }
}
