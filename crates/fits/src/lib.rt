// Does a lent place fit the program (refusal 21)? From the table of a checked file, in time linear in the frames. Every function is total.
#![tactic(auto)]

ghost use Rattle.std.specs.Prelude.{◌≡◌, ◌≤◌, Some};
ghost use Rattle.fits.specs.Fits.{entry_at, number_of, start_of, construct_of, callee_of, call_of, outward, way_out, ends, left, chained, gap_is, gap_fits, edge_fits, fits_in};

use place::{CALLED, Place};
use records::kind::Kind;
use records::reading::calls;
use sections::{DOWN, KIND, LABELS, MIDDLE, OFFSET, OPEN, OWNER, SIZE, UP, entry};

// At most so many frames are calls.
const CALLS: usize = 64;

// A program: its file, the table, and how many records it has.
#[derive(Clone, Copy)]
struct Program<'a> {
    file: &'a [u8],
    table: &'a [u16; SIZE],
    records: usize,
}

// Where one stands on the way outward through the frames.
#[derive(Clone, Copy)]
struct Chain {
    within: u16,
    proc: u16,
    calls: usize,
}

// A frame as one number, as the table has it.
// Stays: (a) beside the table's `frame`: the edits frames_from_two and defined_kinds_alike turn each by itself.
fn number(kind: u16, label: u16) -> usize
    ensures { result ≡ number_of kind label }
{
    1 + (LABELS * usize::from(kind) + usize::from(label))
}

impl Chain {
    // All frames passed: nothing is open, in main.
    #[tactic(auto, unfolding(crate::specs::Fits::ends))]
    fn ends(self) -> bool
        ensures { result ≡ ends (Some self) }
    {
        self.within == 0 && self.proc == 0
    }
}

impl Program<'_> {
    // Out of a construct: the frame must be the innermost one that is open.
    #[tactic(auto, unfolding(crate::specs::Fits::construct_of))]
    fn construct(self, kind: u16, label: u16, c: Chain) -> Option<Chain>
        ensures { result ≡ construct_of self.entry.table.now kind label c }
    {
        if usize::from(c.within) != number(kind, label) {
            return None;
        }
        Some(Chain {
            within: entry(self.table, OPEN - 1, label),
            ..c
        })
    }

    // The procedure that a CALL or UNCALL names.
    fn callee(self, label: u16) -> usize
        ensures { result ≡ callee_of self.entry.file.now self.entry.table.now label }
    {
        let offset = usize::from(entry(self.table, OFFSET, label));
        codes::short(self.file, offset + 4)
    }

    // Out of a procedure, to the record that called it.
    #[tactic(auto, unfolding(crate::specs::Fits::call_of))]
    fn call(self, label: u16, c: Chain) -> Option<Chain>
        ensures { result ≡ call_of self.entry.file.now self.entry.table.now label c }
    {
        if c.within != 0
            || !calls(usize::from(entry(self.table, KIND, label)))
            || usize::from(c.proc) != self.callee(label)
            || CALLS <= c.calls
        {
            return None;
        }
        Some(Chain {
            within: entry(self.table, OPEN, label),
            proc: entry(self.table, OWNER, label),
            calls: c.calls + 1,
        })
    }

    // One frame outward.
    #[tactic(auto, unfolding(crate::specs::Fits::outward))]
    fn outward(self, kind: u16, label: u16, c: Chain) -> Option<Chain>
        ensures { result ≡ outward self.entry.file.now self.entry.table.now self.entry.records kind label c }
    {
        if self.records <= usize::from(label) {
            None
        } else if kind < CALLED {
            self.construct(kind, label, c)
        } else {
            self.call(label, c)
        }
    }

    // Stays: (a) the bound of a count in three contracts: a `Place` that C lends may count more, so it is no invariant of that type.
    // All the place's frames outward, from where one stands.
    #[tactic(auto, using(crate::proofs::Cases::way_lost, crate::proofs::Cases::way_more), unfolding(crate::specs::Fits::way_out))]
    fn way_out(self, place: &Place, start: Chain) -> Option<Chain>
        requires { place.now.count ≤ 1104 }
        ensures { result ≡ way_out self.entry.file.now self.entry.table.now self.entry.records place.now.kinds place.now.labels place.now.count (Some start) }
    {
        let mut c = start;
        for n in (0..place.count).rev() {
            c = self.outward(place.kinds[n], place.labels[n], c)?;
        }
        Some(c)
    }

    // Whether the gap between the records g and g + 1 is the downward edge from x to z.
    #[tactic(auto, unfolding(crate::specs::Fits::gap_is))]
    fn gap_is(self, x: u16, z: u16, g: u16) -> bool
        ensures { result ≡ gap_is self.entry.table.now self.entry.records x z g }
    {
        usize::from(g) + 1 < self.records
            && entry(self.table, UP + 1, g) == x
            && entry(self.table, DOWN, g) == z
            && goes_down(entry(self.table, KIND, g))
    }

    // The way outward starts at the gap g.
    fn start(self, g: u16) -> Chain
        ensures { result ≡ start_of self.entry.table.now g }
    {
        Chain {
            within: entry(self.table, OPEN, g),
            proc: entry(self.table, OWNER, g),
            calls: 0,
        }
    }

    // Whether the edge from x to z is the gap g, with the frames that stand there.
    // (This and `edge_fits` are copied into `fits`, so that the program is never stored: where the table is seen to be lent alone, its
    // callers make no second copy.)
    #[inline(always)]
    #[tactic(auto, unfolding(crate::specs::Fits::gap_fits, crate::specs::Fits::ends))]
    fn gap_fits(self, place: &Place, x: u16, z: u16, g: u16) -> bool
        requires { place.now.count ≤ 1104 }
        ensures { result ≡ gap_fits self.entry.file.now self.entry.table.now self.entry.records place.now x z g }
    {
        self.gap_is(x, z, g) && self.way_out(place, self.start(g)).is_some_and(Chain::ends)
    }

    // Whether the edge from x to z is a gap, with the frames that stand there.
    #[inline(always)]
    #[tactic(auto, unfolding(crate::specs::Fits::edge_fits))]
    fn edge_fits(self, place: &Place, x: u16, z: u16) -> bool
        requires { place.now.count ≤ 1104 }
        ensures { result ≡ edge_fits self.entry.file.now self.entry.table.now self.entry.records place.now x z }
    {
        self.gap_fits(place, x, z, x) || self.gap_fits(place, x, z, entry(self.table, MIDDLE, x))
    }
}

// Whether an edge goes down from a record of this kind: from none of NAMES and END.
#[tactic(auto, using(crate::proofs::Cases::downs))]
fn goes_down(kind: u16) -> bool
    ensures { result ≡ left kind }
{
    let Some(kind) = Kind::of(usize::from(kind)) else {
        return true;
    };
    match kind {
        Kind::Names | Kind::End => false,
        _ => true,
    }
}

// Whether a lent place fits the program.
#[tactic(auto, using(crate::proofs::Cases::plain_is), unfolding(crate::specs::Fits::fits_in))]
pub fn fits(file: &[u8], table: &[u16; SIZE], records: usize, place: Place) -> bool
    ensures { result ≡ fits_in file.now table.now records place }
{
    if !place::plain(place) {
        return false;
    }
    let program = Program {
        file,
        table,
        records,
    };
    if place.direction == 0 {
        program.edge_fits(&place, place.a, place.b)
    } else {
        program.edge_fits(&place, place.b, place.a)
    }
}
