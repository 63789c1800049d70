// Refusals 7 and 8: the first record that names what is not there, and the first SET that names its own target.
#![tactic(auto)]

ghost use Rattle.std.specs.Prelude.{◌≡◌, ◌<◌, length};
ghost use Rattle.names.specs.Names.{there_set, there_at, free_set, free_at, first_unknown, first_own};

use codes::{byte, short};
use expr::{Name, mentions, names_known};
use records::kind::Kind;
use records::walk::{Offsets, kind_at};

// The main body, which cannot be called.
const MAIN: usize = 0;

// A SET whose target is a scalar says so.
const SCALAR: usize = 0;

#[tactic(auto, unfolding(crate::specs::Names::there_scalar, crate::specs::Names::there_array))]
fn there_set(file: &[u8], at: usize, scalars: usize, arrays: usize) -> bool
    requires { at < length file.now }
    ensures { result ≡ there_set file.now at scalars arrays }
{
    let number = short(file, at + 6);
    let first = names_known(file, at + 8, scalars, arrays);
    if byte(file, at + 5) == SCALAR {
        number < scalars && first.ok
    } else {
        number < arrays && first.ok && names_known(file, first.next, scalars, arrays).ok
    }
}

// The record at `at` names no scalar, array or procedure beyond so many, and does not call the main body.
// Stays: (d) the three counts as parameters, since a struct of them would be made for this one call and taken apart again for `names_known`.
#[tactic(auto, using(crate::proofs::NamesCases::cases))]
fn there(file: &[u8], at: usize, scalars: usize, arrays: usize, procedures: usize) -> bool
    ensures { result ≡ there_at file.now at scalars arrays procedures }
{
    let Some(kind) = Kind::of(kind_at(file, at)) else {
        return true;
    };
    match kind {
        Kind::Set => there_set(file, at, scalars, arrays),
        _ if kind.is_test() => names_known(file, at + 4, scalars, arrays).ok,
        _ if kind.is_call() => {
            let number = short(file, at + 4);
            number != MAIN && number < procedures
        }
        _ => true,
    }
}

#[tactic(auto, unfolding(crate::specs::Names::free_scalar, crate::specs::Names::free_array))]
fn free_set(file: &[u8], at: usize) -> bool
    requires { at < length file.now }
    ensures { result ≡ free_set file.now at }
{
    let number = short(file, at + 6);
    if byte(file, at + 5) == SCALAR {
        !mentions(file, at + 8, Name::Scalar(number)).found
    } else {
        let target = Name::Array(number);
        let index = mentions(file, at + 8, target);
        !index.found && !mentions(file, index.next, target).found
    }
}

// The record at `at` is no SET that names its own target.
#[tactic(auto, unfolding(crate::specs::Names::free_at))]
fn free(file: &[u8], at: usize) -> bool
    ensures { result ≡ free_at file.now at }
{
    kind_at(file, at) != Kind::Set as usize || free_set(file, at)
}

// The first record that refusal 7 is about: what it names is not among so many scalars, arrays and procedures.
pub fn first_unknown(file: &[u8], scalars: usize, arrays: usize, procedures: usize) -> Option<usize>
    ensures { result ≡ first_unknown file.now scalars arrays procedures }
{
    Offsets::of(file).position(|at| !there(file, at, scalars, arrays, procedures))
}

// The first record that refusal 8 is about: a SET that names its own target.
pub fn first_own(file: &[u8]) -> Option<usize>
    ensures { result ≡ first_own file.now }
{
    Offsets::of(file).position(|at| !free(file, at))
}
