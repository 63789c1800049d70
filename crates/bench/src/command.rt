// The command that the program's words are.
ghost use Rattle.std.specs.Prelude.{◌≤◌, length};

use crate::number::{read_integer, read_natural};
use std::env::{Env, FillError};

// What is done to a session: so many steps forward or back; a cell set to a value; its place and store shown.
#[derive(Clone, Copy)]
pub enum Deed {
    Step(u32),
    Back(u32),
    Set(u32, i32),
    Show,
}

// Start says whether it goes up.
// Stays: (a) the bool of a start: `machine::start` takes it.
#[derive(Clone, Copy)]
pub enum Command {
    Check,
    Start(bool),
    On(Deed),
}

// Whether the direction that the word says is up.
fn up(word: &[u8]) -> Option<bool> {
    match word {
        b"down" => Some(false),
        b"up" => Some(true),
        _ => None,
    }
}

// The N of `step FILE SESSION [N]` and `back FILE SESSION [N]`.
fn steps(count: usize, word: &[u8]) -> Option<u32> {
    match count {
        4 => Some(1),
        5 => read_natural(word),
        _ => None,
    }
}

// `start FILE SESSION [down|up]`
fn start(count: usize, word: &[u8]) -> Option<bool> {
    match count {
        4 => Some(false),
        5 => up(word),
        _ => None,
    }
}

// The command of a name, the number of words with the program's own, and the fourth and fifth word after that.
fn named(name: &[u8], count: usize, fourth: &[u8], fifth: &[u8]) -> Option<Command> {
    match name {
        b"check" if count == 3 => Some(Command::Check),
        b"show" if count == 4 => Some(Command::On(Deed::Show)),
        b"start" => start(count, fourth).map(Command::Start),
        _ => changing(name, count, fourth, fifth).map(Command::On),
    }
}

fn changing(name: &[u8], count: usize, fourth: &[u8], fifth: &[u8]) -> Option<Deed> {
    match name {
        b"step" => Some(Deed::Step(steps(count, fourth)?)),
        b"back" => Some(Deed::Back(steps(count, fourth)?)),
        // `set FILE SESSION CELL VALUE`
        b"set" if count == 6 => Some(Deed::Set(read_natural(fourth)?, read_integer(fifth)?)),
        _ => None,
    }
}

// The word with that number at the start of the buffer, and its length; a word that is not there, or longer, is read as empty.
pub(crate) fn word(rt: &impl Env, number: usize, buffer: &mut [u8]) -> usize
    ensures { result ≤ length buffer.new }
{
    rt.arg(number, buffer).unwrap_or(0)
}

// Whether there is a word with that number.
fn is_there(rt: &impl Env, number: usize) -> bool {
    !matches!(rt.arg(number, &mut []), Err(FillError::NotPresent))
}

// More words than any command has.
const MANY: usize = 7;

// How many words there are, with the program's own: `MANY` where there are more.
fn count(rt: &impl Env) -> usize {
    (0..MANY)
        .find(|number| !is_there(rt, *number))
        .unwrap_or(MANY)
}

// A word that is longer than 32 bytes is read as empty: no command, direction or number is so long.
pub(crate) fn asked(rt: &impl Env) -> Option<Command> {
    let mut name = [0u8; 32];
    let mut fourth = [0u8; 32];
    let mut fifth = [0u8; 32];
    let i = word(rt, 1, &mut name);
    let j = word(rt, 4, &mut fourth);
    let k = word(rt, 5, &mut fifth);
    named(&name[..i], count(rt), &fourth[..j], &fifth[..k])
}
