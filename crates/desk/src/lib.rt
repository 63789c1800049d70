// The desk: one current session, lent and moved. Every function is total. What C calls stands in `desk_c`.
#![tactic(auto)]

ghost use Rattle.std.specs.Prelude.{◌≡◌, ◌≤◌, pos, replicate};
ghost use Rattle.refusals.specs.Numbers.{number_of};
ghost use Rattle.moves.specs.Step.{step, step_back};
ghost use Rattle.moves.specs.Runs.{run, run_back};
ghost use Rattle.desk.specs.Desk.{numbers, made, laid, steps_of, OverSays, MoveSays, SteppedSays, RanSays, BeginSays, OpenSays, SavingSays, CheckSays};
ghost use Rattle.desk.specs.Whole.{in_numbers, left, By, Steps, Runs};

use machine::{Ran, Stepped};
use place::Place;
use refusals::{Reason, Refusal};

// No program has more cells.
const CELLS: usize = 2048;

// A place, and the store in the first `count` cells.
// Stays: (a) the C interface (include/ladrukhi.h): a count beside the cells here, and numbers for refusals in the two structs below.
#[repr(C)]
#[derive(Clone, Copy)]
pub struct Session {
    pub place: Place,
    pub count: usize,
    pub cells: [i32; CELLS],
}

// The document's number (0: not refused), the record (0 where there is none), and the count that the call tells.
#[repr(C)]
#[derive(Drop)]
pub struct Answer {
    pub reason: u8,
    pub label: usize,
    pub count: usize,
}

// What a check tells: the number and the record, or the counts.
#[repr(C)]
#[derive(Drop)]
pub struct Counts {
    pub reason: u8,
    pub label: usize,
    pub records: usize,
    pub procedures: usize,
    pub cells: usize,
}

// The session afterwards, and the answer.
#[derive(Drop)]
pub struct Outcome {
    pub session: Session,
    pub answer: Answer,
}

impl Answer {
    // What was told, in numbers.
    fn of(told: Result<(), Refusal>, count: usize) -> Self
        ensures { result ≡ in_numbers told count }
    {
        match told {
            Ok(()) => Self {
                reason: 0,
                label: 0,
                count,
            },
            Err(refusal) => Self {
                reason: refusal.reason.number(),
                label: refusal.label,
                count,
            },
        }
    }
}

// What refuses a session whose count no program has: the program's own refusal, else that the size is wrong.
fn over(file: &[u8]) -> Refusal
    ensures { OverSays file.now (number_of result.reason) result.label }
{
    match program::check(file) {
        Ok(_) => Refusal::at(Reason::WrongSize, 0),
        Err(refusal) => refusal,
    }
}

// The next session, or the one that was lent where that is refused.
fn settled(session: Session, next: Result<Session, Refusal>) -> Outcome
    ensures { result ≡ left session next }
{
    match next {
        Ok(session) => Outcome {
            session,
            answer: Answer::of(Ok(()), 0),
        },
        Err(refusal) => Outcome {
            session,
            answer: Answer::of(Err(refusal), 0),
        },
    }
}

// A step as a run of one: a refused step makes none.
fn counted(step: Stepped) -> Ran
    ensures { result ≡ record { told = step.told; steps = steps_of step.told; place = step.place } }
{
    Ran {
        told: step.told,
        steps: u32::from(step.told.is_ok()),
        place: step.place,
    }
}

// A move of the session by a call that is lent its store: a refused one hands back the place, and leaves the store.
fn moved<F: FnOnce(&mut [i32]) -> Ran>(file: &[u8], session: &Session, go: F) -> Outcome
    requires { F.IsAlwaysCallable go }
    ensures { MoveSays (By (F.post go) session.now) file.now session.now result }
{
    let count = session.count;
    if CELLS < count {
        return Outcome {
            session: *session,
            answer: Answer::of(Err(over(file)), 0),
        };
    }
    let mut cells = session.cells;
    let Ran { told, steps, place } = go(&mut cells[..count]);
    Outcome {
        session: Session {
            place,
            count,
            cells,
        },
        answer: Answer::of(told, steps as usize),
    }
}

// A step forward.
pub fn stepped(file: &[u8], session: Session) -> Outcome
    ensures { SteppedSays step file.now session result }
{
    moved(
        file,
        &session,
        |store: &mut [i32]| -> Ran
            ensures { Steps step file.entry.now session.place store.old result store.new }
        { counted(machine::step(file, session.place, store)) },
    )
}

// A step back.
pub fn stepped_back(file: &[u8], session: Session) -> Outcome
    ensures { SteppedSays step_back file.now session result }
{
    moved(
        file,
        &session,
        |store: &mut [i32]| -> Ran
            ensures { Steps step_back file.entry.now session.place store.old result store.new }
        { counted(machine::back(file, session.place, store)) },
    )
}

// At most n steps forward.
pub fn ran(file: &[u8], session: Session, n: u32) -> Outcome
    ensures { RanSays run file.now session n result }
{
    moved(
        file,
        &session,
        |store: &mut [i32]| -> Ran
            ensures { Runs run file.entry.now session.place n store.old result store.new }
        { machine::run(file, session.place, store, n) },
    )
}

// At most n steps back.
pub fn ran_back(file: &[u8], session: Session, n: u32) -> Outcome
    ensures { RanSays run_back file.now session n result }
{
    moved(
        file,
        &session,
        |store: &mut [i32]| -> Ran
            ensures { Runs run_back file.entry.now session.place n store.old result store.new }
        { machine::run_back(file, session.place, store, n) },
    )
}

// The session at a place, its first `count` cells zeros.
fn laid_out(session: Session, place: Place, count: usize) -> Session
    requires { count ≤ 2048 }
    ensures { result ≡ laid session place count (replicate count (pos 0)) }
{
    let mut cells = session.cells;
    cells[..count].fill(0);
    Session {
        place,
        count,
        cells,
    }
}

// The session of a start, up or down.
fn begun(file: &[u8], session: Session, direction: u32) -> Result<Session, Refusal>
    ensures { BeginSays file.now session direction (left session result) }
{
    let counts = program::check(file)?;
    let place = machine::start(file, direction != 0)?;
    Ok(laid_out(session, place, counts.cells))
}

// A start of the program over zeros, down where the direction is 0, else up.
pub fn started(file: &[u8], session: Session, direction: u32) -> Outcome
    ensures { BeginSays file.now session direction result }
{
    settled(session, begun(file, session, direction))
}

// The session that is read from a session file.
fn found(file: &[u8], saved: &[u8], session: Session) -> Result<Session, Refusal>
    ensures { OpenSays file.now saved.now session (left session result) }
{
    let count = program::check(file)?.cells;
    let mut cells = session.cells;
    let place = saved::read(file, saved, &mut cells[..count])?;
    Ok(Session {
        place,
        count,
        cells,
    })
}

// The session of a session file.
pub fn opened(file: &[u8], saved: &[u8], session: Session) -> Outcome
    ensures { OpenSays file.now saved.now session result }
{
    settled(session, found(file, saved, session))
}

// The session file of a session, into the buffer.
pub fn saving(file: &[u8], session: Session, buffer: &mut [u8]) -> Answer
    ensures { SavingSays file.now session buffer.old result buffer.new }
{
    let count = session.count;
    if CELLS < count {
        return Answer::of(Err(over(file)), 0);
    }
    match saved::save(file, session.place, &session.cells[..count], buffer) {
        Ok(written) => Answer::of(Ok(()), written),
        Err(refusal) => Answer::of(Err(refusal), 0),
    }
}

// What a check of the file tells.
pub fn ladrukhi_check(file: &[u8]) -> Counts
    ensures { CheckSays file.now result }
{
    match program::check(file) {
        Ok(counts) => Counts {
            reason: 0,
            label: 0,
            records: counts.records,
            procedures: counts.procedures,
            cells: counts.cells,
        },
        Err(refusal) => Counts {
            reason: refusal.reason.number(),
            label: refusal.label,
            records: 0,
            procedures: 0,
            cells: 0,
        },
    }
}

// ---- over a session that is lent: the session is copied, moved by value and stored

impl Outcome {
    // The session goes where one was lent; the answer.
    fn stored(self, session: &mut Session) -> Answer
        ensures { made result session.new ≡ self }
    {
        *session = self.session;
        self.answer
    }
}

// A start of the program, 0 down, else up.
pub fn ladrukhi_start(file: &[u8], session: &mut Session, direction: u32) -> Answer
    ensures { BeginSays file.now session.old direction (made result session.new) }
{
    started(file, *session, direction).stored(session)
}

// The session of a session file.
pub fn ladrukhi_open(file: &[u8], saved: &[u8], session: &mut Session) -> Answer
    ensures { OpenSays file.now saved.now session.old (made result session.new) }
{
    opened(file, saved, *session).stored(session)
}

// A step forward.
pub fn ladrukhi_step(file: &[u8], session: &mut Session) -> Answer
    ensures { SteppedSays step file.now session.old (made result session.new) }
{
    stepped(file, *session).stored(session)
}

// A step back.
pub fn ladrukhi_back(file: &[u8], session: &mut Session) -> Answer
    ensures { SteppedSays step_back file.now session.old (made result session.new) }
{
    stepped_back(file, *session).stored(session)
}

// At most n steps forward.
pub fn ladrukhi_run(file: &[u8], session: &mut Session, n: u32) -> Answer
    ensures { RanSays run file.now session.old n (made result session.new) }
{
    ran(file, *session, n).stored(session)
}

// At most n steps back.
pub fn ladrukhi_run_back(file: &[u8], session: &mut Session, n: u32) -> Answer
    ensures { RanSays run_back file.now session.old n (made result session.new) }
{
    ran_back(file, *session, n).stored(session)
}

// The session file of the session, into the buffer.
pub fn ladrukhi_save(file: &[u8], session: &Session, buffer: &mut [u8]) -> Answer
    ensures { SavingSays file.now session.now buffer.old result buffer.new }
{
    saving(file, *session, buffer)
}
