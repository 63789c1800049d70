// The records of a program file: the walk over them, and what is first wrong with one of them, refusals 2 to 5.
#![tactic(auto)]

pub mod kind;
pub mod reading;
pub mod walk;

// How many records a walk has come past, and how many of them are BEGIN, which opens a procedure.
#[derive(Clone, Copy)]
pub struct Walked {
    pub records: usize,
    pub procedures: usize,
}
