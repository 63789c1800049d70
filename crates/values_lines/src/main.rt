// Reads lines `OP LEFT RIGHT` and writes `value V` or `zero` for each: the operators held to the second program's answers.
#![tactic(auto)]

ghost use Rattle.std.specs.Prelude.{◌≤◌, length};

use std::io::Print;

// More bytes than all the cases have, and than their answers.
const ALL: usize = 65536;

// The position after i, within the slice.
fn past(s: &[u8], i: usize) -> usize {
    if i < s.len() { i + 1 } else { i }
}

fn operator(v: u64) -> u8 {
    v.min(15) as u8
}

// What the operator gives on the line at `at`: none by a zero divisor.
fn given(s: &[u8], at: usize) -> Option<i32> {
    let op = words::read_digits(s, at);
    let left = words::read_signed(s, past(s, op.next));
    let right = words::read_signed(s, past(s, left.next));
    values::apply(
        operator(op.value),
        words::nearest(left.value),
        words::nearest(right.value),
    )
}

// One answer line at `at`, and the position after it.
#[tactic(auto, using(words::proofs::Writing::after_within))]
fn answer(out: &mut [u8], at: usize, v: Option<i32>) -> usize
    requires { at ≤ length out.old }
    ensures { result ≤ length out.new }
{
    let Some(v) = v else {
        return words::put_bytes(out, at, b"zero\n");
    };
    let named = words::put_bytes(out, at, b"value ");
    let end = words::put_signed(out, named, i64::from(v));
    words::put_bytes(out, end, b"\n")
}

// All answer lines from the front of out on, and the position after them.
fn answers(s: &[u8], out: &mut [u8]) -> usize
    ensures { result ≤ length out.new }
{
    let mut end = 0;
    for at in 0..s.len() {
        // where a line starts
        if at == 0 || s[at - 1] == b'\n' {
            end = answer(out, end, given(s, at));
        }
    }
    end
}

fn told(rt: &impl Print, input: &[u8]) {
    let mut out: [u8; ALL] = words::full(0);
    let end = answers(input, &mut out);
    // Nobody is left to tell where standard output is closed.
    let _ = rt.write_all(&out[..end]);
}

fn main(rt: HostRuntime) {
    let mut input: [u8; ALL] = words::full(0);
    match files::read_open(&mut rt.stdin(), &mut input) {
        Ok(n) => told(&rt, &input[..n]),
        Err(error) => {
            files::complain(&rt, b"values_lines", b"standard input", error);
        }
    }
}
