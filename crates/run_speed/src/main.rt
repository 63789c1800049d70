// Runs the program file on standard input down from the start on zeros, until it stops, for the benchmark speed/run to time.
// The answer goes to standard output, the clock before and after the run to standard error: no test can hold a time.
#![tactic(auto)]

use place::Place;
use refusals::Refusal;
use std::io::Print;
use std::time::{CpuClock, Duration};
use std::{fmt, io};

// More bytes than any accepted file has.
const ROOM: usize = 65536;

// The most cells that a store has.
const CELLS: usize = 2048;

// Zeros, made apart so that no goal carries them.
fn empty_file() -> [u8; ROOM] {
    [0; ROOM]
}

fn empty_store() -> [i32; CELLS] {
    [0; CELLS]
}

// A look at the clock.
#[derive(Drop)]
struct Look(io::Result<Duration>);

// Microseconds; nothing where the clock could not be read.
impl fmt::Display for Look {
    fn fmt<W: fmt::Write>(&self, f: &mut fmt::Formatter<W>) -> fmt::Result {
        match &self.0 {
            Ok(used) => write!(f, "{}", used.as_micros()),
            Err(_) => Ok(()),
        }
    }
}

fn tell(out: &impl Print, told: Result<(), Refusal>, steps: u32) -> io::Result<()> {
    let stop = match told {
        Ok(()) => 0,
        Err(r) => r.reason.number(),
    };
    println!(out; "steps {steps} stop {stop}")
}

// The run between two looks at the clock.
fn timed(rt: &HostRuntime, file: &[u8], place: Place, store: &mut [i32]) {
    let before = Look(rt.process_cpu_time());
    let r = machine::run(file, place, store, u32::MAX);
    let after = Look(rt.process_cpu_time());
    // Nobody is left to tell where a stream is closed.
    let _ = tell(rt, r.told, r.steps);
    let _ = eprintln!(rt; "clock {before} {after}");
}

// A refused file is run too, from no place and with no cell: `run` then says so.
fn started(rt: &HostRuntime, file: &[u8]) {
    let mut store = empty_store();
    let n = program::check(file).map_or(0, |counts| counts.cells);
    let place = machine::start(file, false).unwrap_or(Place::blank());
    if n <= CELLS {
        timed(rt, file, place, &mut store[..n]);
    }
}

fn main(rt: HostRuntime) {
    let mut file = empty_file();
    match files::read_open(&mut rt.stdin(), &mut file) {
        Ok(n) => started(&rt, &file[..n]),
        Err(error) => {
            files::complain(&rt, b"run_speed", b"standard input", error);
        }
    }
}
