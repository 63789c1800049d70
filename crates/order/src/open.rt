// The open constructs of a file that is gone over record by record, and what may come next.
use records::kind::Kind;
use std::marker::Model;

// At most so many constructs are open at once.
const DEEP: usize = 16;

// The part of a construct that a statement stands in, by the record that it comes after.
#[derive(Clone, Copy, PartialEq, Eq)]
pub enum Frame {
    If,
    Else,
    From,
    Loop,
}

// What has come, and so what may come next.
#[derive(Clone, Copy, PartialEq, Eq)]
pub enum Phase {
    // Nothing: NAMES must come.
    Start,
    // NAMES: the first BEGIN must come.
    Named,
    // END: BEGIN may come, or the file may stop.
    Ended,
    // BEGIN, IF, ELSE, FROM or LOOP: a statement must come.
    Opened,
    // A statement: another may come, or what ends or turns the part that it stands in.
    Stated,
    // What no order is valid after.
    Misplaced,
}

// The open constructs, outermost first, and the phase.
// Stays: (a) the form that document 01 names: a small array by value with a count. (All fields are bytes: where there are bytes between
// them, each record copies those too, and the processor waits for it.)
#[derive(Drop)]
pub struct Open {
    frames: [Frame; DEEP],
    count: u8,
    phase: Phase,
}

impl Model for Open {
    ghost use Rattle.std.specs.Prelude.{◌≤◌};
    ghost use Rattle.order.specs.Order.{State};

    ghost Value = { State };

    ghost use Rattle.order.specs.Stack.{stack};

    ghost view = { λ o. record { phase = o.phase; opens = stack o.frames o.count } };

    ghost invariant = { λ o. o.count ≤ 16 };
}

// Stays: (b) a phase where no order is valid, and no `Option<Open>` from each record function: with it a check of 1,000 SKIPs takes 1.7 times as long.
impl Open {
    ghost use Rattle.std.specs.Prelude.{◌≡◌};
    ghost use Rattle.std.specs.Prelude.{[], is_none};
    ghost use Rattle.order.specs.Order.{at, seen, named, begun, ended, passed, opened, meets, turned, closed, whole, next, after};

    // None open, and nothing has come.
    #[tactic(auto, unfolding(crate::specs::Stack::stack))]
    pub(crate) fn new() -> Self
        ensures { result ≡ at Phase.Start [] }
    {
        Self {
            frames: [Frame::If; DEEP],
            count: 0,
            phase: Phase::Start,
        }
    }

    // The same constructs, in this phase.
    fn at(mut self, phase: Phase) -> Self
        ensures { result ≡ at phase self.opens }
    {
        self.phase = phase;
        self
    }

    // NAMES comes.
    fn named(self) -> Self
        ensures { seen result ≡ named self.phase self.opens }
    {
        match self.phase {
            Phase::Start => self.at(Phase::Named),
            _ => self.at(Phase::Misplaced),
        }
    }

    // BEGIN comes.
    fn begun(self) -> Self
        ensures { seen result ≡ begun self.phase self.opens }
    {
        match self.phase {
            Phase::Named | Phase::Ended => self.at(Phase::Opened),
            _ => self.at(Phase::Misplaced),
        }
    }

    // END comes.
    #[tactic(auto, using(crate::proofs::Stacks::ends))]
    fn ended(self) -> Self
        ensures { seen result ≡ ended self.phase self.opens }
    {
        match self.phase {
            Phase::Stated if self.count == 0 => self.at(Phase::Ended),
            _ => self.at(Phase::Misplaced),
        }
    }

    // SET, CALL, UNCALL or SKIP comes.
    fn passed(self) -> Self
        ensures { seen result ≡ passed self.phase self.opens }
    {
        match self.phase {
            Phase::Opened | Phase::Stated => self.at(Phase::Stated),
            _ => self.at(Phase::Misplaced),
        }
    }

    // IF or FROM comes, and opens this frame.
    fn opened(mut self, frame: Frame) -> Self
        ensures { seen result ≡ opened frame self.phase self.opens }
    {
        match self.phase {
            Phase::Opened | Phase::Stated if usize::from(self.count) < DEEP => {
                self.frames[usize::from(self.count)] = frame;
                self.count += 1;
                self.at(Phase::Opened)
            }
            _ => self.at(Phase::Misplaced),
        }
    }

    // A statement has come, and the innermost frame is this one.
    #[tactic(auto, using(crate::proofs::Stacks::meeting))]
    fn meets(&self, frame: Frame) -> bool
        ensures { result ≡ meets frame self.now.phase self.now.opens }
    {
        match self.phase {
            Phase::Stated if self.count != 0 => self.frames[usize::from(self.count) - 1] == frame,
            _ => false,
        }
    }

    // ELSE or LOOP comes, and turns the first frame into the second.
    #[tactic(auto, using(crate::proofs::Stacks::meeting))]
    fn turned(mut self, first: Frame, second: Frame) -> Self
        ensures { seen result ≡ turned first second self }
    {
        if !self.meets(first) {
            return self.at(Phase::Misplaced);
        }
        self.frames[usize::from(self.count) - 1] = second;
        self.at(Phase::Opened)
    }

    // FI or UNTIL comes, and closes this frame.
    #[tactic(auto, using(crate::proofs::Stacks::meeting))]
    fn closed(mut self, frame: Frame) -> Self
        ensures { seen result ≡ closed frame self }
    {
        if !self.meets(frame) {
            return self.at(Phase::Misplaced);
        }
        self.count -= 1;
        self.at(Phase::Stated)
    }

    // A record of this kind comes.
    fn came(self, kind: Kind) -> Self
        ensures { seen result ≡ after self kind }
    {
        match kind {
            Kind::Names => self.named(),
            Kind::Begin => self.begun(),
            Kind::End => self.ended(),
            Kind::Set | Kind::Call | Kind::Uncall | Kind::Skip => self.passed(),
            Kind::If => self.opened(Frame::If),
            Kind::Else => self.turned(Frame::If, Frame::Else),
            Kind::Fi => self.closed(Frame::Else),
            Kind::From => self.opened(Frame::From),
            Kind::Loop => self.turned(Frame::From, Frame::Loop),
            Kind::Until => self.closed(Frame::Loop),
        }
    }

    // A record of the kind of this number comes.
    #[tactic(auto, unfolding(crate::specs::Order::next))]
    pub(crate) fn after(self, number: usize) -> Self
        ensures { seen result ≡ next self number }
    {
        match Kind::of(number) {
            Some(kind) => self.came(kind),
            None => self.at(Phase::Misplaced),
        }
    }

    // No order is valid after the records that came.
    pub(crate) fn is_misplaced(&self) -> bool
        ensures { result ≡ is_none (seen self.now) }
    {
        self.phase == Phase::Misplaced
    }

    // The records may stop here.
    pub(crate) fn is_whole(&self) -> bool
        ensures { result ≡ whole self.now.phase }
    {
        self.phase == Phase::Ended
    }
}
