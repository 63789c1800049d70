// Reads program files, one a line in hexadecimal, and writes `accepted R P C` or `refused N R` for each: the check held to the second program's answers.
#![tactic(auto)]

ghost use Rattle.std.specs.Prelude.{◌≡◌, length};
ghost use Rattle.words.specs.Zeros.{Filled};

use program::Counts;
use refusals::Refusal;
use std::io;
use std::io::Print;

// More bytes than any file of the cases has.
const ROOM: usize = 33000;

// More bytes than all the cases have.
const ALL: usize = 4194304;

fn tell(rt: &impl Print, answer: Result<Counts, Refusal>) -> io::Result<()> {
    match answer {
        Ok(c) => println!(rt; "accepted {} {} {}", c.records, c.procedures, c.cells),
        Err(r) => println!(rt; "refused {} {}", r.reason.number(), r.label),
    }
}

fn answers(rt: &impl Print, s: &[u8]) {
    if s.is_empty() {
        return;
    }
    let mut file: [u8; ROOM] = words::full(0);
    // The newline that ends the last line begins none.
    for line in s.strip_suffix(b"\n").unwrap_or(s).split(|b| *b == b'\n') {
        let n = words::hex_bytes(line, 0, &mut file);
        // Nobody is left to tell where standard output is closed.
        let _ = tell(rt, program::check(&file[..n]));
    }
}

fn main(rt: HostRuntime) {
    let mut input: [u8; ALL] = words::full(0);
    match files::read_open(&mut rt.stdin(), &mut input) {
        Ok(n) => answers(&rt, &input[..n]),
        Err(error) => {
            files::complain(&rt, b"check_lines", b"standard input", error);
        }
    }
}
