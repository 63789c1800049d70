// A place as a struct by value, with the methods that turn it round, push, pop and hand the next place back.
// Slot 0 is the outermost frame, so that a push and a pop touch one slot; unused slots hold 0. Every function is total.
#![tactic(auto)]

ghost use Rattle.std.specs.Prelude.{◌≡◌, ◌+◌, ◌≤◌, ◌<◌, ◌↔◌, Bool, false, get_or, length, EachIndex, IsTrue, MatchOption};
ghost use Rattle.place.specs.Slots.{Plain, Decides};
ghost use Rattle.place.specs.Methods.{blank_of, turned_of, moved_of, pushed_of, popped_of, changed_of, some, innermost_at, top_at, top_in};

// A place has room for so many frames.
pub const FRAMES: usize = 1104;
// The kind of a call's frame, the highest.
pub const CALLED: u16 = 4;

// Stays: (a) the C interface: a direction and kinds as numbers, and slots with a count beside them.
#[repr(C)]
#[derive(Clone, Copy)]
pub struct Place {
    pub direction: u8,
    pub a: u16,
    pub b: u16,
    pub count: usize,
    pub kinds: [u16; FRAMES],
    pub labels: [u16; FRAMES],
}

// A frame.
#[derive(Clone, Copy)]
pub struct Top {
    pub kind: u16,
    pub label: u16,
}

impl Place {
    // All zeros: it stands for no place.
    #[tactic(auto, unfolding(crate::specs::Methods::zeros))]
    pub fn blank() -> Place
        ensures { result ≡ blank_of }
    {
        Place {
            direction: 0,
            a: 0,
            b: 0,
            count: 0,
            kinds: [0; FRAMES],
            labels: [0; FRAMES],
        }
    }

    // The same edge the other way.
    pub fn turned(self) -> Place
        ensures { result ≡ turned_of self }
    {
        let direction = match self.direction {
            0 => 1,
            1 => 0,
            other => other,
        };
        Place {
            direction,
            a: self.b,
            b: self.a,
            ..self
        }
    }

    // The same frames at another edge.
    pub fn moved(self, direction: u8, a: u16, b: u16) -> Place
        ensures { result ≡ moved_of self direction a b }
    {
        Place {
            direction,
            a,
            b,
            ..self
        }
    }

    // A frame more, innermost; a full place stays as it is.
    #[tactic(auto, unfolding(crate::specs::Methods::pushed_of))]
    pub fn pushed(mut self, kind: u16, label: u16) -> Place
        ensures { result ≡ pushed_of self kind label }
    {
        let at = self.count;
        if at < FRAMES {
            self.kinds[at] = kind;
            self.labels[at] = label;
            self.count = at + 1;
        }
        self
    }

    // The innermost frame less; a place without one stays as it is.
    #[tactic(auto, unfolding(crate::specs::Methods::some, crate::specs::Methods::popped_of))]
    pub fn popped(mut self) -> Place
        ensures { result ≡ popped_of self }
    {
        if let Some(last) = last_of(self.count) {
            self.kinds[last] = 0;
            self.labels[last] = 0;
            self.count = last;
        }
        self
    }

    // Another kind for the innermost frame; a place without one stays as it is.
    #[tactic(auto, unfolding(crate::specs::Methods::some, crate::specs::Methods::changed_of))]
    pub fn changed(mut self, kind: u16) -> Place
        ensures { result ≡ changed_of self kind }
    {
        if let Some(last) = last_of(self.count) {
            self.kinds[last] = kind;
        }
        self
    }

    // The innermost frame.
    #[tactic(auto, unfolding(crate::specs::Methods::some, crate::specs::Methods::top_in))]
    pub fn top(self) -> Option<Top>
        ensures { result ≡ top_in self }
    {
        let last = last_of(self.count)?;
        Some(Top {
            kind: self.kinds[last],
            label: self.labels[last],
        })
    }
}

// The slot of the innermost of n frames.
#[tactic(auto, unfolding(crate::specs::Methods::some))]
fn last_of(n: usize) -> Option<usize>
    ensures { MatchOption result (some n ≡ false) (λ i. (n ≡ i + 1) × (n ≤ 1104)) }
{
    match n {
        1..=FRAMES => Some(n - 1),
        _ => None,
    }
}

// The innermost of n slots.
#[tactic(auto, unfolding(crate::specs::Methods::some, crate::specs::Methods::innermost_at))]
pub fn innermost(s: &[u16; FRAMES], n: usize) -> Option<u16>
    ensures { result ≡ innermost_at s.now n }
{
    let last = last_of(n)?;
    Some(s[last])
}

// The innermost of n slots, or `none` where there is none.
// Stays: (a) the clause of `top_of` itself, and that of `decide` (specs/Ways `sight`), speak of `top_at` with a number for none.
#[tactic(auto, unfolding(crate::specs::Methods::innermost_at, crate::specs::Methods::top_at))]
pub fn top_of(s: &[u16; FRAMES], n: usize, none: u16) -> u16
    ensures { result ≡ top_at s.now n none }
{
    innermost(s, n).unwrap_or(none)
}

// Whether all of these slots are kinds of frames.
fn are_kinds(s: &[u16]) -> bool
    ensures { IsTrue result ↔ EachIndex s.now (λ k. get_or s.now k 0 ≤ 4) }
{
    s.iter().all(|kind| *kind <= CALLED)
}

// Whether all of these slots hold 0.
fn are_unused(s: &[u16]) -> bool
    ensures { IsTrue result ↔ EachIndex s.now (λ k. get_or s.now k 0 ≡ 0) }
{
    s.iter().all(|number| *number == 0)
}

// Whether p holds some place of the document's.
pub fn plain(p: Place) -> bool
    ensures { Decides result (Plain p) }
{
    p.direction <= 1
        && p.count <= FRAMES
        && are_kinds(&p.kinds[..p.count])
        && are_unused(&p.kinds[p.count..])
        && are_unused(&p.labels[p.count..])
}
