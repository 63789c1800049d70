// Refusals 2 to 5: each record in turn is asked whether it is cut, of an unknown kind, malformed or oversize.
ghost use Rattle.std.specs.Prelude.{◌≡◌, ◌+◌, ◌≤◌, length};
ghost use Rattle.records.specs.Kinds.{kind_number, tests, calls};
ghost use Rattle.records.specs.Reading.{expr_at, fills, set_body, formed_as, shorts_at, cells_fit, names_fit, sized_as, wrong_at, walk_of};
ghost use Rattle.records.specs.Faults.{word};

use crate::Walked;
use crate::kind::Kind;
use crate::walk::{Offsets, kind_at};
use codes::{byte, short};
use refusals::{Reason, Refusal};

// The expression at `at` fills its place up to `stop`.
fn fills(file: &[u8], at: usize, stop: usize) -> bool
    ensures { result ≡ fills (expr_at file.now at) stop }
{
    expr::expression_end(file, at) == Some(stop)
}

// The body of a SET: operator, target, number, for an array its index expression, then the expression.
#[tactic(auto, using(crate::proofs::Cases::setting))]
fn set_body(file: &[u8], at: usize) -> bool
    ensures { result ≡ set_body file.now at }
{
    if file.len() <= at || 3 <= byte(file, at + 4) {
        return false;
    }
    let stop = at + short(file, at);
    match byte(file, at + 5) {
        0 => fills(file, at + 8, stop),
        1 => expr::expression_end(file, at + 8).is_some_and(|start| fills(file, start, stop)),
        _ => false,
    }
}

// Whether the body of a record of the kind of that number is an expression.
#[tactic(auto, using(crate::proofs::Thirteen::testing))]
pub fn tests(kind: usize) -> bool
    ensures { result ≡ tests kind }
{
    let Some(kind) = Kind::of(kind) else {
        return false;
    };
    kind.is_test()
}

// Whether it is a procedure's number.
#[tactic(auto, using(crate::proofs::Thirteen::calling))]
pub fn calls(kind: usize) -> bool
    ensures { result ≡ calls kind }
{
    let Some(kind) = Kind::of(kind) else {
        return false;
    };
    kind.is_call()
}

// The body is right for a record of that kind.
#[tactic(auto, using(crate::proofs::Cases::formed_out), unfolding(crate::specs::Reading::formed_as))]
fn formed(file: &[u8], at: usize, kind: Kind) -> bool
    ensures { result ≡ formed_as (kind_number kind) file.now at }
{
    if file.len() <= at {
        return false;
    }
    let size = short(file, at);
    match kind {
        Kind::Names => size == 8 + 2 * short(file, at + 6),
        Kind::Set => set_body(file, at),
        Kind::If | Kind::Fi | Kind::From | Kind::Until => fills(file, at + 4, at + size),
        Kind::Call | Kind::Uncall => size == 6,
        Kind::Begin | Kind::End | Kind::Else | Kind::Loop | Kind::Skip => size == 4,
    }
}

// The n array lengths at `at` are 1 to 1,024, and with v scalars they make at most 2,048 cells.
#[tactic(auto, using(crate::proofs::Cases::counting))]
fn cells_fit(file: &[u8], at: usize, n: usize, v: usize) -> bool
    requires inside { at ≤ length file.now + 8 }
    requires few { (n ≤ 16) × (v ≤ 64) }
    ensures { result ≡ cells_fit v (shorts_at file.now at n) }
{
    let mut total = v;
    for i in 0..n {
        let length = short(file, at + 2 * i);
        if length == 0 || 1024 < length {
            return false;
        }
        total += length;
    }
    total <= 2048
}

// The NAMES at `at` is within the sizes.
#[tactic(auto, using(crate::proofs::Cases::naming))]
fn names_fit(file: &[u8], at: usize) -> bool
    ensures { result ≡ names_fit (word file.now (at + 4)) (shorts_at file.now (at + 8) (word file.now (at + 6))) }
{
    if file.len() <= at {
        return true;
    }
    let v = short(file, at + 4);
    let n = short(file, at + 6);
    v <= 64 && n <= 16 && cells_fit(file, at + 8, n, v)
}

// A record of that kind is within the sizes, after those before it.
#[tactic(auto, unfolding(crate::specs::Reading::sized_as))]
fn sized(file: &[u8], at: usize, kind: Kind, before: Walked) -> bool
    ensures { result ≡ sized_as (kind_number kind) file.now at before.records before.procedures }
{
    before.records < 1024
        && match kind {
            Kind::Names => names_fit(file, at),
            Kind::Begin => before.procedures < 64,
            _ => true,
        }
}

// What is wrong with the record at `at`, after those before it.
#[tactic(auto, using(crate::proofs::Cases::asking))]
fn wrong(file: &[u8], at: usize, before: Walked) -> Option<Reason>
    ensures { result ≡ wrong_at file.now at before.records before.procedures }
{
    if file.len() <= at || file.len() < at + 4 {
        return Some(Reason::Cut);
    }
    let size = short(file, at);
    if size < 4 || file.len() < at + size {
        return Some(Reason::Cut);
    }
    let Some(kind) = Kind::of(short(file, at + 2)) else {
        return Some(Reason::UnknownKind);
    };
    if !formed(file, at, kind) {
        return Some(Reason::Malformed);
    }
    if !sized(file, at, kind, before) {
        return Some(Reason::Oversize);
    }
    None
}

// The counts of records and BEGINs, or the reason and the record that is first at fault.
#[tactic(auto, using(crate::proofs::Walking::walking))]
pub fn walk(file: &[u8]) -> Result<Walked, Refusal>
    ensures { result ≡ walk_of file.now }
{
    let mut walked = Walked {
        records: 0,
        procedures: 0,
    };
    for at in Offsets::of(file) {
        if let Some(reason) = wrong(file, at, walked) {
            return Err(Refusal::at(reason, walked.records));
        }
        walked.records += 1;
        walked.procedures += usize::from(kind_at(file, at) == Kind::Begin as usize);
    }
    Ok(walked)
}
