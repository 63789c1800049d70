// What C calls: the functions of `desk` over a session that is lent, under C's names, each with the clauses that it has there.
// Stays: (a) the C interface: a crate is a library or a static library, so that the names for C stand apart from the functions that Rattle calls.
#![tactic(auto)]

ghost use Rattle.moves.specs.Step.{step, step_back};
ghost use Rattle.moves.specs.Runs.{run, run_back};
ghost use Rattle.desk.specs.Desk.{made, SteppedSays, RanSays, BeginSays, OpenSays, SavingSays, CheckSays};

use desk::{Answer, Counts, Session};

// What a check of the file tells.
#[unsafe(no_mangle)]
pub extern "C" fn ladrukhi_check(file: &[u8]) -> Counts
    ensures { CheckSays file.now result }
{
    desk::ladrukhi_check(file)
}

// A start of the program, 0 down, else up.
#[unsafe(no_mangle)]
pub extern "C" fn ladrukhi_start(file: &[u8], session: &mut Session, direction: u32) -> Answer
    ensures { BeginSays file.now session.old direction (made result session.new) }
{
    desk::ladrukhi_start(file, session, direction)
}

// The session of a session file.
#[unsafe(no_mangle)]
pub extern "C" fn ladrukhi_open(file: &[u8], saved: &[u8], session: &mut Session) -> Answer
    ensures { OpenSays file.now saved.now session.old (made result session.new) }
{
    desk::ladrukhi_open(file, saved, session)
}

// A step forward.
#[unsafe(no_mangle)]
pub extern "C" fn ladrukhi_step(file: &[u8], session: &mut Session) -> Answer
    ensures { SteppedSays step file.now session.old (made result session.new) }
{
    desk::ladrukhi_step(file, session)
}

// A step back.
#[unsafe(no_mangle)]
pub extern "C" fn ladrukhi_back(file: &[u8], session: &mut Session) -> Answer
    ensures { SteppedSays step_back file.now session.old (made result session.new) }
{
    desk::ladrukhi_back(file, session)
}

// At most n steps forward.
#[unsafe(no_mangle)]
pub extern "C" fn ladrukhi_run(file: &[u8], session: &mut Session, n: u32) -> Answer
    ensures { RanSays run file.now session.old n (made result session.new) }
{
    desk::ladrukhi_run(file, session, n)
}

// At most n steps back.
#[unsafe(no_mangle)]
pub extern "C" fn ladrukhi_run_back(file: &[u8], session: &mut Session, n: u32) -> Answer
    ensures { RanSays run_back file.now session.old n (made result session.new) }
{
    desk::ladrukhi_run_back(file, session, n)
}

// The session file of the session, into the buffer.
#[unsafe(no_mangle)]
pub extern "C" fn ladrukhi_save(file: &[u8], session: &Session, buffer: &mut [u8]) -> Answer
    ensures { SavingSays file.now session.now buffer.old result buffer.new }
{
    desk::ladrukhi_save(file, session, buffer)
}
