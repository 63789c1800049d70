// The two directions, and what goes by one.
ghost use Rattle.std.specs.Prelude.{◌≡◌, cond, eqb};
ghost use Rattle.ways.specs.Looks.{side_number, other_of, operator_at};

#[derive(Clone, Copy)]
pub enum Side {
    Down,
    Up,
}

impl Side {
    // "u8 direction, 0 down, 1 up"
    pub fn number(self) -> u8
        ensures { result ≡ side_number self }
    {
        self as u8
    }

    pub fn other(self) -> Side
        ensures { side_number result ≡ other_of (side_number self) }
    {
        match self {
            Side::Down => Side::Up,
            Side::Up => Side::Down,
        }
    }

    // The first going down, the second going up.
    pub fn going(self, down: u16, up: u16) -> u16
        ensures { result ≡ cond (eqb (side_number self) 0) down up }
    {
        match self {
            Side::Down => down,
            Side::Up => up,
        }
    }

    // "up the opposite one (`^` is its own)"
    pub fn operator(self, o: u16) -> u16
        ensures { result ≡ operator_at o (side_number self) }
    {
        let opposite = match o {
            0 => 1,
            1 => 0,
            _ => o,
        };
        self.going(o, opposite)
    }
}
