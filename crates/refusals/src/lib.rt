// The refusals: the reasons and their numbers, and a refusal as its reason and the record at fault. No code refuses here.
#![tactic(auto)]

ghost use Rattle.std.specs.Prelude.{◌≡◌};
ghost use Rattle.refusals.specs.Numbers.{number_of};

// Why something is refused.
#[derive(Clone, Copy, PartialEq, Eq)]
pub enum Reason {
    // of a program file
    TooLong,
    Cut,
    UnknownKind,
    Malformed,
    Oversize,
    Misplaced,
    NotThere,
    OwnName,
    // of the saved and of what is lent
    WrongSize,
    Unfit,
    NoSession,
    NoRoom,
    // of a step
    AtEnd,
    WrongValue,
    ZeroDivisor,
    BadIndex,
    TooDeep,
}

impl Reason {
    // The number that the bench gives.
    pub fn number(self) -> u8
        ensures { result ≡ number_of self }
    {
        match self {
            Reason::TooLong => 1,
            Reason::Cut => 2,
            Reason::UnknownKind => 3,
            Reason::Malformed => 4,
            Reason::Oversize => 5,
            Reason::Misplaced => 6,
            Reason::NotThere => 7,
            Reason::OwnName => 8,
            Reason::WrongSize => 20,
            Reason::Unfit => 21,
            Reason::NoSession => 22,
            Reason::NoRoom => 23,
            Reason::AtEnd => 30,
            Reason::WrongValue => 31,
            Reason::ZeroDivisor => 32,
            Reason::BadIndex => 33,
            Reason::TooDeep => 34,
        }
    }
}

// A reason, and the record at fault: 0 where there is none.
#[derive(Clone, Copy)]
pub struct Refusal {
    pub reason: Reason,
    pub label: usize,
}

impl Refusal {
    // For that reason, at that record.
    pub fn at(reason: Reason, label: usize) -> Self
        ensures { result ≡ record { reason = reason; label = label } }
    {
        Self { reason, label }
    }
}
