// Files in, answers out: both files are read before either is judged, and a session is written before its answer is printed.
ghost use Rattle.std.specs.Prelude.{◌≤◌, length, IfSome};
ghost use Rattle.bench.specs.Inner.{RoomOf};

use crate::answer::{Answer, SESSION, answered, checked, started};
use crate::command::{Command, Deed, word};
use files::Failure;
use print::TEXT;
use std::io::{Print, Result};

// One byte more than the longest program file.
const FILE: usize = 32769;

// A word of the command line has fewer bytes on Linux.
const NAME: usize = 131072;

fn complain(rt: &HostRuntime, name: &[u8], error: Failure) {
    files::complain(rt, b"bench", name, error);
}

fn tell_usage(err: &impl Print) -> Result<()> {
    err.write_all(
        b"usage: bench check FILE | start FILE SESSION [down|up] | step FILE SESSION [N] | ",
    )?;
    err.write_all(b"back FILE SESSION [N] | set FILE SESSION CELL VALUE | show FILE SESSION\n")
}

fn usage(rt: &HostRuntime) {
    // Nobody is left to tell where standard error is closed.
    let _ = tell_usage(&rt.stderr());
}

fn say(rt: &HostRuntime, text: &[u8]) {
    // What failed has been complained of.
    let _ = files::say(rt, b"bench", text);
}

// Saves the new session, if there is one, then says the text.
fn finish(
    rt: &HostRuntime,
    name: &[u8],
    answer: Option<Answer>,
    buffer: &[u8; SESSION],
    text: &[u8; TEXT],
)
    requires { RoomOf answer (length buffer.now) (length text.now) }
{
    let Some(answer) = answer else {
        usage(rt);
        return;
    };
    if let Some(written) = answer.written
        && let Err(error) = files::replace(rt, name, &buffer[..written])
    {
        complain(rt, name, error);
        return;
    }
    say(rt, &text[..answer.said]);
}

fn check(rt: &HostRuntime, file: &[u8]) {
    let mut text: [u8; TEXT] = words::full(0);
    let n = checked(file, &mut text);
    say(rt, &text[..n]);
}

// `start` does not read the session.
fn start(rt: &HostRuntime, up: bool, file: &[u8], name: &[u8]) {
    let mut buffer: [u8; SESSION] = words::full(0);
    let mut text: [u8; TEXT] = words::full(0);
    let answer = started(file, up, &mut buffer, &mut text);
    finish(rt, name, Some(answer), &buffer, &text);
}

// What is done on the session with that name.
fn on_session(rt: &HostRuntime, deed: Deed, file: &[u8], name: &[u8], session: &[u8]) {
    let mut buffer: [u8; SESSION] = words::full(0);
    let mut text: [u8; TEXT] = words::full(0);
    let answer = answered(deed, file, session, &mut buffer, &mut text);
    finish(rt, name, answer, &buffer, &text);
}

// How many bytes of the file with that name were read; where it cannot be, that was complained of.
fn content_of(rt: &HostRuntime, name: &[u8], buffer: &mut [u8]) -> Option<usize>
    ensures { IfSome result (λ n. n ≤ length buffer.new) }
{
    match files::read_named(rt, name, buffer) {
        Ok(size) => Some(size),
        Err(error) => {
            complain(rt, name, error);
            None
        }
    }
}

fn with_session(rt: &HostRuntime, deed: Deed, file: &[u8], name: &[u8]) {
    let mut session: [u8; SESSION] = words::full(0);
    if let Some(n) = content_of(rt, name, &mut session) {
        on_session(rt, deed, file, name, &session[..n]);
    }
}

fn on_file(rt: &HostRuntime, command: Command, file: &[u8]) {
    let mut name: [u8; NAME] = words::full(0);
    let n = word(rt, 3, &mut name);
    match command {
        Command::Check => check(rt, file),
        Command::Start(up) => start(rt, up, file, &name[..n]),
        Command::On(deed) => with_session(rt, deed, file, &name[..n]),
    }
}

fn with_file(rt: &HostRuntime, command: Command) {
    let mut name: [u8; NAME] = words::full(0);
    let n = word(rt, 2, &mut name);
    let mut file: [u8; FILE] = words::full(0);
    if let Some(size) = content_of(rt, &name[..n], &mut file) {
        on_file(rt, command, &file[..size]);
    }
}

pub(crate) fn perform(rt: &HostRuntime, command: Option<Command>) {
    match command {
        Some(command) => with_file(rt, command),
        None => usage(rt),
    }
}
