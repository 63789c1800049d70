// The lines that `run` and `bench` print, written into a lent buffer at a position; each answers the position after what it wrote.
#![tactic(auto)]

ghost use Rattle.std.specs.Prelude.{◌≡◌, min};
ghost use Rattle.print.specs.Rows.{put_all, after_all};
ghost use Rattle.print.specs.Told.{reason_of};
ghost use Rattle.print.specs.Lines.{pair, refused_line, steps_line, at_line, frame_line, frame_lines, cell_line, shown, cell_lines, accepted_line};

use refusals::Refusal;

// Room for every text of `run` and `bench`: a place in at most 50 bytes, 1,104 frames and 2,048 cells in at most 48 each.
pub const TEXT: usize = 151346;

// The refusals below it, 1 to 8, tell a record.
const NO_RECORD: u8 = 9;

// The direction down, as a place has it.
const DOWN: u8 = 0;

// A cell that holds it gets no line.
const UNSET: i32 = 0;

// The number of how a move ended: 0 where it was made.
pub fn reason(told: Result<(), Refusal>) -> u8
    ensures { result ≡ reason_of told }
{
    match told {
        Ok(()) => 0,
        Err(refusal) => refusal.reason.number(),
    }
}

// Two numbers with words before, between and after them.
// Stays: (a) fixed memory: each of these writes into a lent buffer at a position; a writer with both would say the same of its fields.
fn put_pair(
    buf: &mut [u8],
    at: usize,
    first: &[u8],
    m: u64,
    second: &[u8],
    n: u64,
    end: &[u8],
) -> usize
    ensures value { result ≡ after_all buf.old at (pair first.now m second.now n end.now) }
    ensures buf_after { buf.new ≡ put_all buf.old at (pair first.now m second.now n end.now) }
{
    let i = words::put_bytes(buf, at, first);
    let j = words::put_decimal(buf, i, m);
    let k = words::put_bytes(buf, j, second);
    let l = words::put_decimal(buf, k, n);
    words::put_bytes(buf, l, end)
}

// Stays: (a) refusals by their numbers here and in `put_steps`, as the two clauses have them.
// `refused N record R` for the numbers 1 to 8, else `refused N`
pub fn put_refused(buf: &mut [u8], at: usize, number: u8, label: usize) -> usize
    ensures value { result ≡ after_all buf.old at (refused_line number label) }
    ensures buf_after { buf.new ≡ put_all buf.old at (refused_line number label) }
{
    if number < NO_RECORD {
        return put_pair(
            buf,
            at,
            b"refused ",
            number as u64,
            b" record ",
            label as u64,
            b"\n",
        );
    }
    let i = words::put_bytes(buf, at, b"refused ");
    let j = words::put_decimal(buf, i, number as u64);
    words::put_bytes(buf, j, b"\n")
}

// `steps N stop R`
pub fn put_steps(buf: &mut [u8], at: usize, steps: u32, reason: u8) -> usize
    ensures value { result ≡ after_all buf.old at (steps_line steps reason) }
    ensures buf_after { buf.new ≡ put_all buf.old at (steps_line steps reason) }
{
    put_pair(
        buf,
        at,
        b"steps ",
        steps as u64,
        b" stop ",
        reason as u64,
        b"\n",
    )
}

// `at A B down`, or `up`
pub fn put_at(buf: &mut [u8], at: usize, a: u16, b: u16, direction: u8) -> usize
    ensures value { result ≡ after_all buf.old at (at_line a b direction) }
    ensures buf_after { buf.new ≡ put_all buf.old at (at_line a b direction) }
{
    if direction == DOWN {
        return put_pair(buf, at, b"at ", a as u64, b" ", b as u64, b" down\n");
    }
    put_pair(buf, at, b"at ", a as u64, b" ", b as u64, b" up\n")
}

// `accepted records R procedures P cells C`
pub fn put_accepted(
    buf: &mut [u8],
    at: usize,
    records: usize,
    procedures: usize,
    cells: usize,
) -> usize
    ensures value { result ≡ after_all buf.old at (accepted_line records procedures cells) }
    ensures buf_after { buf.new ≡ put_all buf.old at (accepted_line records procedures cells) }
{
    let i = put_pair(
        buf,
        at,
        b"accepted records ",
        records as u64,
        b" procedures ",
        procedures as u64,
        b" cells ",
    );
    let j = words::put_decimal(buf, i, cells as u64);
    words::put_bytes(buf, j, b"\n")
}

// The frames in use, innermost first; more than 1,104 are counted as so many.
// Stays: (a) slots and their count, as `Place` has them, which C has too.
pub fn put_frames(
    buf: &mut [u8],
    at: usize,
    kinds: &[u16; 1104],
    labels: &[u16; 1104],
    count: usize,
) -> usize
    ensures value { result ≡ after_all buf.old at (frame_lines (min count 1104) kinds.now labels.now) }
    ensures buf_after { buf.new ≡ put_all buf.old at (frame_lines (min count 1104) kinds.now labels.now) }
{
    let mut next = at;
    for i in (0..count.min(kinds.len())).rev() {
        next = put_frame(buf, next, kinds[i], labels[i]);
    }
    next
}

fn put_frame(buf: &mut [u8], at: usize, kind: u16, label: u16) -> usize
    ensures value { result ≡ after_all buf.old at (frame_line kind label) }
    ensures buf_after { buf.new ≡ put_all buf.old at (frame_line kind label) }
{
    put_pair(buf, at, b"frame ", kind as u64, b" ", label as u64, b"\n")
}

// `cell I V`; nothing for a cell that is 0
fn put_cell(buf: &mut [u8], at: usize, i: usize, v: i32) -> usize
    ensures value { result ≡ after_all buf.old at (shown i v) }
    ensures buf_after { buf.new ≡ put_all buf.old at (shown i v) }
{
    if v == UNSET {
        return at;
    }
    put_value(buf, at, i, v)
}

fn put_value(buf: &mut [u8], at: usize, i: usize, v: i32) -> usize
    ensures value { result ≡ after_all buf.old at (cell_line i v) }
    ensures buf_after { buf.new ≡ put_all buf.old at (cell_line i v) }
{
    let j = words::put_bytes(buf, at, b"cell ");
    let k = words::put_decimal(buf, j, i as u64);
    let l = words::put_bytes(buf, k, b" ");
    let m = words::put_signed(buf, l, i64::from(v));
    words::put_bytes(buf, m, b"\n")
}

// Each cell that is not 0, ascending.
pub fn put_cells(buf: &mut [u8], at: usize, store: &[i32]) -> usize
    ensures value { result ≡ after_all buf.old at (cell_lines 0 store.now) }
    ensures buf_after { buf.new ≡ put_all buf.old at (cell_lines 0 store.now) }
{
    let mut next = at;
    for (i, v) in store.iter().enumerate() {
        next = put_cell(buf, next, i, *v);
    }
    next
}
