// The program `run`: a program file on standard input, from its start down on zeros, at most 1,000,000 steps.
#![tactic(auto)]

ghost use Rattle.std.specs.Prelude.{◌≡◌};
ghost use Rattle.print.specs.Rows.{put_all, after_all};
ghost use Rattle.run.specs.Report.{report_lines, Reports, Counted, Zeroed};

use place::Place;
use print::TEXT;

// One byte more than is allowed is enough to know that a file is too long.
const ROOM: usize = 32769;

const CELLS: usize = 2048;

const STEPS: u32 = 1000000;

// The lines of a run.
fn put_report(text: &mut [u8], steps: u32, reason: u8, place: Place, store: &[i32]) -> usize
    ensures value { result ≡ after_all text.old 0 (report_lines steps reason place.a place.b place.direction store.now) }
    ensures text_after { text.new ≡ put_all text.old 0 (report_lines steps reason place.a place.b place.direction store.now) }
{
    let i = print::put_steps(text, 0, steps, reason);
    let j = print::put_at(text, i, place.a, place.b, place.direction);
    print::put_cells(text, j, store)
}

// A run of a program that is accepted, on a store of zeros.
fn walked(file: &[u8], store: &mut [i32], text: &mut [u8; TEXT]) -> usize
    requires { Zeroed file.now store.old }
    ensures { Reports file.now text.old text.new result }
{
    let first = machine::start(file, false).unwrap();
    let ran = machine::run(file, first, store, STEPS);
    put_report(text, ran.steps, print::reason(ran.told), ran.place, store)
}

fn ran(file: &[u8], cells: usize, text: &mut [u8; TEXT]) -> usize
    requires { Counted file.now cells }
    ensures { Reports file.now text.old text.new result }
{
    let mut store: [i32; CELLS] = words::full(0);
    walked(file, &mut store[..cells], text)
}

// What is printed for a file, at the start of `text`; its length.
fn report(file: &[u8], text: &mut [u8; TEXT]) -> usize
    ensures { Reports file.now text.old text.new result }
{
    match program::check(file) {
        Err(refusal) => print::put_refused(text, 0, refusal.reason.number(), refusal.label),
        Ok(counts) => ran(file, counts.cells, text),
    }
}

fn answer(rt: &HostRuntime, file: &[u8]) {
    let mut text: [u8; TEXT] = words::full(0);
    let n = report(file, &mut text);
    // What failed has been complained of.
    let _ = files::say(rt, b"run", &text[..n]);
}

fn main(rt: HostRuntime) {
    let mut file: [u8; ROOM] = words::full(0);
    match files::read_open(&mut rt.stdin(), &mut file) {
        Err(error) => {
            files::complain(&rt, b"run", b"standard input", error);
        }
        Ok(n) => answer(&rt, &file[..n]),
    }
}
