// The lines that move: `s` a start, `f` and `b` a step, `r` and `q` a run.
use crate::bench::Bench;
use crate::line::Line;
use crate::tell::tell_steps;
use machine::{Ran, Stepped};
use place::Place;
use refusals::Refusal;
use std::io::{self, Print};

impl Bench {
    // At the place that was found, or else at the blank one; what was told.
    pub(crate) fn settle(&mut self, found: Result<Place, Refusal>) -> Result<(), Refusal> {
        self.place = found.unwrap_or(Place::blank());
        found.map(|_| ())
    }

    fn tell(&self, rt: &impl Print, told: Result<(), Refusal>, steps: u32) -> io::Result<()> {
        tell_steps(rt, told, steps, &self.place, &self.cells[..self.count])
    }

    // `s D`: a start, up where D is 1, else down.
    fn start(&mut self, rt: &impl Print, mut line: Line) -> io::Result<()> {
        let found = machine::start(&self.file[..self.size], line.number() == 1);
        let told = self.settle(found);
        self.tell(rt, told, 0)
    }

    fn stepped(&mut self, rt: &impl Print, r: Stepped) -> io::Result<()> {
        self.place = r.place;
        self.tell(rt, r.told, u32::from(r.told.is_ok()))
    }

    fn ran(&mut self, rt: &impl Print, r: Ran) -> io::Result<()> {
        self.place = r.place;
        self.tell(rt, r.told, r.steps)
    }

    // Takes a line: one that sets tells nothing, and one that is none changes nothing.
    pub(crate) fn take(&mut self, rt: &impl Print, mut line: Line) -> io::Result<()> {
        let file = &self.file[..self.size];
        let count = self.count;
        let cells = &mut self.cells[..];
        let store = &mut cells[..count];
        match line.command() {
            b's' => return self.start(rt, line),
            b'f' => {
                let r = machine::step(file, self.place, store);
                return self.stepped(rt, r);
            }
            b'b' => {
                let r = machine::back(file, self.place, store);
                return self.stepped(rt, r);
            }
            b'r' => {
                let r = machine::run(file, self.place, store, line.whole());
                return self.ran(rt, r);
            }
            b'q' => {
                let r = machine::run_back(file, self.place, store, line.whole());
                return self.ran(rt, r);
            }
            b'o' => return self.open(rt, line),
            b'v' => return self.save(rt, line),
            b'p' => self.load(line),
            b'c' => self.store(line),
            b'n' => self.blank(line),
            b'l' => self.stand(line),
            b'x' => self.slot(line),
            _ => {}
        }
        Ok(())
    }
}
