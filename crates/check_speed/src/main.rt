// Checks the program file on standard input again and again, for the benchmark speed/check to time; `second recheck` does and writes the same.
#![tactic(auto)]

ghost use Rattle.std.specs.Prelude.{◌≡◌, ◌≤◌, length};

use program::Counts;
use refusals::Refusal;
use std::io;
use std::io::Print;

// More bytes than any accepted file has.
const ROOM: usize = 65536;

// About so many bytes are checked in all, whatever the file's length.
const BYTES: usize = 64000000;

// So that a small file takes but a moment.
const MOST: usize = 20000;

// The low byte of the number of scalars: where it is even, an accepted file stays accepted with one more.
const CHANGED: usize = 4;

// How often a file of `n` bytes is checked.
fn repeats(n: usize) -> usize
    requires { n ≤ 65536 }
    ensures { result ≤ 20000 }
{
    MOST.min(BYTES / (n + 1))
}

fn tell(
    rt: &impl Print,
    calls: usize,
    accepted: usize,
    last: Option<Result<Counts, Refusal>>,
) -> io::Result<()> {
    let (why, record) = match last {
        Some(Err(r)) => (r.reason.number(), r.label),
        _ => (0, 0),
    };
    println!(rt; "calls {calls} accepted {accepted} last {why} {record}")
}

// The file's own byte where an even number of turns is left, else the other.
fn turned(own: u8, left: usize) -> u8 {
    if left % 2 == 1 { own ^ 1 } else { own }
}

// Every other turn has another byte, so that no call can stand for the one before; the last has the file's own.
fn recheck(rt: &impl Print, mut file: [u8; ROOM], n: usize)
    requires { n ≤ 65536 }
{
    let calls = repeats(n);
    let own = file[CHANGED];
    let mut accepted = 0;
    let mut last = None;
    for turn in 0..calls {
        file[CHANGED] = turned(own, calls - 1 - turn);
        let answer = program::check(&file[..n]);
        if answer.is_ok() {
            accepted += 1;
        }
        last = Some(answer);
    }
    // Nobody is left to tell where standard output is closed.
    let _ = tell(rt, calls, accepted, last);
}

// Zeros, made apart so that no goal carries them.
fn empty_file() -> [u8; ROOM]
    ensures { 65536 ≡ length result }
{
    [0; ROOM]
}

fn main(rt: HostRuntime) {
    let mut file = empty_file();
    match files::read_open(&mut rt.stdin(), &mut file) {
        Ok(n) => recheck(&rt, file, n),
        Err(error) => {
            files::complain(&rt, b"check_speed", b"standard input", error);
        }
    }
}
