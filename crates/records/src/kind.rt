// The kinds of records, and the number of each in a file.
ghost use Rattle.std.specs.Prelude.{◌≡◌};
ghost use Rattle.records.specs.Kinds.{kind_number, kind_of, tests, calls};

#[derive(Clone, Copy, PartialEq, Eq)]
pub enum Kind {
    Names = 1,
    Begin,
    End,
    Set,
    If,
    Else,
    Fi,
    From,
    Loop,
    Until,
    Call,
    Uncall,
    Skip,
}

impl Kind {
    // The kind of that number, if there is one.
    #[tactic(auto, unfolding(crate::specs::Kinds::kind_of))]
    pub fn of(number: usize) -> Option<Kind>
        ensures { result ≡ kind_of number }
    {
        match number {
            1 => Some(Kind::Names),
            2 => Some(Kind::Begin),
            3 => Some(Kind::End),
            4 => Some(Kind::Set),
            5 => Some(Kind::If),
            6 => Some(Kind::Else),
            7 => Some(Kind::Fi),
            8 => Some(Kind::From),
            9 => Some(Kind::Loop),
            10 => Some(Kind::Until),
            11 => Some(Kind::Call),
            12 => Some(Kind::Uncall),
            13 => Some(Kind::Skip),
            _ => None,
        }
    }

    // Kinds whose body is an expression: IF, FI, FROM, UNTIL.
    pub fn is_test(self) -> bool
        ensures { result ≡ tests (kind_number self) }
    {
        matches!(self, Kind::If | Kind::Fi | Kind::From | Kind::Until)
    }

    // Kinds whose body is a procedure's number: CALL, UNCALL.
    pub fn is_call(self) -> bool
        ensures { result ≡ calls (kind_number self) }
    {
        matches!(self, Kind::Call | Kind::Uncall)
    }
}
