// The lines that set: `p` the program, `c` and `n` the store, `l` the place, `x` an unused slot of it.
ghost use Rattle.std.specs.Prelude.{◌≤◌, length};

use crate::bench::Bench;
use crate::line::Line;
use place::{FRAMES, Place};

// The cells that are listed from here on, into `store`; how many they are.
fn list(mut line: Line, store: &mut [i32]) -> usize
    ensures { result ≤ length store.new }
{
    for (n, cell) in store.iter_mut().enumerate() {
        if !line.more() {
            return n;
        }
        *cell = line.cell();
    }
    store.len()
}

// Each second number from here on, into the slots below `top`, the innermost first.
fn fill(mut line: Line, slots: &mut [u16; FRAMES], top: usize)
    requires { top ≤ 1104 }
{
    for slot in slots[..top].iter_mut().rev() {
        if !line.more() {
            return;
        }
        *slot = line.half();
        let _ = line.number();
    }
}

// The frames listed from here on: their kinds stand first, their labels second.
fn framed(mut line: Line, count: usize) -> Place {
    let mut q = Place::blank();
    let top = count.min(FRAMES);
    q.count = count;
    fill(line, &mut q.kinds, top);
    if line.more() {
        let _ = line.number();
        fill(line, &mut q.labels, top);
    }
    q
}

impl Bench {
    // `p HEX`: the program.
    pub(crate) fn load(&mut self, mut line: Line) {
        self.size = line.bytes(&mut self.file);
    }

    // `c V ..`: the store's cells.
    pub(crate) fn store(&mut self, line: Line) {
        self.count = list(line, &mut self.cells);
    }

    // `n COUNT`: a store of so many zeros.
    pub(crate) fn blank(&mut self, mut line: Line) {
        let count = line.within(self.cells.len());
        let cells = &mut self.cells[..];
        cells[..count].fill(0);
        self.count = count;
    }

    // `l D A B COUNT K L ..`: the place.
    pub(crate) fn stand(&mut self, mut line: Line) {
        let direction = line.byte();
        let a = line.half();
        let b = line.half();
        let count = usize::from(line.half());
        self.place = framed(line, count).moved(direction, a, b);
    }

    // `x I K L`: the unused slot so far from the used ones.
    pub(crate) fn slot(&mut self, mut line: Line) {
        let i = self.place.count.min(FRAMES) + usize::from(line.half());
        let kind = line.half();
        let label = line.half();
        if i < FRAMES {
            self.place.kinds[i] = kind;
            self.place.labels[i] = label;
        }
    }
}
