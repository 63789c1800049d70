// Prefix-coded expressions: where one ends, whether it mentions a name, whether its names are there.
#![tactic(auto)]

ghost use Rattle.std.specs.Prelude.{◌≡◌};
ghost use Rattle.expr.specs.Bytes.{parse, whole};
ghost use Rattle.expr.specs.Answers.{end_of, seen_of, known_of};

use codes::{byte, short};

// The operators are 0 to 15.
const OPERATORS: usize = 16;

// A name: a scalar or an array, by its number. Scalar 0 and array 0 are two names.
#[derive(Clone, Copy, PartialEq, Eq)]
pub enum Name {
    Scalar(usize),
    Array(usize),
}

// Where the expression at `at`, at most `left` deep, ends.
#[tactic(auto, using(crate::proofs::Ends::ends))]
fn end_at(s: &[u8], at: usize, left: usize) -> Option<usize>
    ensures { result ≡ end_of (parse left s.now at) }
{
    if left == 0 || s.len() <= at {
        return None;
    }
    match byte(s, at) {
        0 => (at + 5 <= s.len()).then_some(at + 5),
        1 => (at + 3 <= s.len()).then_some(at + 3),
        2 => end_at(s, at + 3, left - 1),
        3 if byte(s, at + 1) < OPERATORS => end_at(s, end_at(s, at + 2, left - 1)?, left - 1),
        _ => None,
    }
}

// Where the expression at `at` ends, if there is one of depth 16 or less.
pub fn expression_end(s: &[u8], at: usize) -> Option<usize>
    ensures { result ≡ end_of (parse 16 s.now at) }
{
    end_at(s, at, 16)
}

// Whether a name was found, and where the expression ends.
// Stays: (a) where it ends is promised (`seen_of`) whether or not the name is found, so this is no Option.
#[derive(Drop)]
pub struct Seen {
    pub found: bool,
    pub next: usize,
}

// Whether the expression at `at` mentions the name; and where it ends.
#[tactic(auto, using(crate::proofs::Names::names))]
pub fn mentions(s: &[u8], at: usize, name: Name) -> Seen
    ensures { result ≡ seen_of name (whole s.now at) }
{
    if s.len() <= at {
        return Seen {
            found: false,
            next: at,
        };
    }
    match byte(s, at) {
        0 => Seen {
            found: false,
            next: at + 5,
        },
        1 => Seen {
            found: name == Name::Scalar(short(s, at + 1)),
            next: at + 3,
        },
        2 => {
            let index = mentions(s, at + 3, name);
            Seen {
                found: name == Name::Array(short(s, at + 1)) || index.found,
                next: index.next,
            }
        }
        _ => {
            let left = mentions(s, at + 2, name);
            let right = mentions(s, left.next, name);
            Seen {
                found: left.found || right.found,
                next: right.next,
            }
        }
    }
}

// Whether the names are all there, and where the expression ends.
// Stays: (a) where it ends is promised (`known_of`) whether or not they are there, so this is no Option.
#[derive(Drop)]
pub struct Known {
    pub ok: bool,
    pub next: usize,
}

// Whether the names of the expression at `at` are all there, of so many scalars and arrays; and where it ends.
// Stays: (a) a walk beside `mentions`, since document 01 wants that one as a recursive walk of its own that looks for a name.
#[tactic(auto, using(crate::proofs::Knowns::knowns))]
pub fn names_known(s: &[u8], at: usize, scalars: usize, arrays: usize) -> Known
    ensures { result ≡ known_of scalars arrays (whole s.now at) }
{
    if s.len() <= at {
        return Known { ok: true, next: at };
    }
    match byte(s, at) {
        0 => Known {
            ok: true,
            next: at + 5,
        },
        1 => Known {
            ok: short(s, at + 1) < scalars,
            next: at + 3,
        },
        2 => {
            let index = names_known(s, at + 3, scalars, arrays);
            Known {
                ok: short(s, at + 1) < arrays && index.ok,
                next: index.next,
            }
        }
        _ => {
            let left = names_known(s, at + 2, scalars, arrays);
            let right = names_known(s, left.next, scalars, arrays);
            Known {
                ok: left.ok && right.ok,
                next: right.next,
            }
        }
    }
}
