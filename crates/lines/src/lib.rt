// The streams of the second program: command lines that set and move one program, place and store, and an answer line for each that moves, reads or saves.
#![tactic(auto)]

ghost use Rattle.std.specs.Prelude.{◌≡◌, length};
ghost use Rattle.files.specs.Told.{Within};
ghost use Rattle.lines.specs.Line.{line_count};

use crate::bench::Bench;
use crate::line::Line;
use files::Failure;
use std::io::Print;

mod bench;
mod line;
mod saves;
mod set;
mod tell;
mod walks;

// Answers the lines of a stream; how many there are.
pub fn answers(rt: &impl Print, s: &[u8]) -> usize
    ensures { result ≡ line_count s.now }
{
    let mut bench = Bench::bare();
    let mut count: usize = 0;
    let mut at = 0;
    // Stays: (d) a line's words may stand past its end, so that a loop over pieces of the stream would answer some streams otherwise.
    while at < s.len() {
        // Nobody is left to tell where standard output is closed.
        let _ = bench.take(rt, Line::new(s, at));
        count += 1;
        at = words::next_line(s, at);
    }
    count
}

// A program over the stream on standard input, as much of it as fits: how many lines were answered, or the failure that was complained of.
pub fn program(rt: &HostRuntime, name: &[u8], input: &mut [u8]) -> Result<usize, Failure>
    ensures { Within result (length input.new) }
{
    match files::read_open(&mut rt.stdin(), input) {
        Ok(n) => Ok(answers(rt, &input[..n])),
        Err(failure) => Err(files::complain(rt, name, b"standard input", failure)),
    }
}
