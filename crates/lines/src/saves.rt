// The lines that read and save session files: `o` and `v`.
use crate::bench::Bench;
use crate::line::Line;
use crate::tell::{tell_read, tell_saved};
use std::io::{Print, Result};

// More bytes than any session file or buffer of the cases has.
const ROOM: usize = 70000;

impl Bench {
    // `o HEX`: the session of a session file, or the blank place.
    pub(crate) fn open(&mut self, rt: &impl Print, mut line: Line) -> Result<()> {
        let mut bytes = [0; ROOM];
        let n = line.bytes(&mut bytes);
        let file = &self.file[..self.size];
        let count = self.count;
        let cells = &mut self.cells[..];
        let read = saved::read(file, &bytes[..n], &mut cells[..count]);
        let told = self.settle(read);
        tell_read(rt, told, &self.place, &self.cells[..count])
    }

    // `v LEN FILL`: a save into a buffer of so many bytes that all hold `fill`.
    pub(crate) fn save(&self, rt: &impl Print, mut line: Line) -> Result<()> {
        let mut bytes = [0; ROOM];
        let buffer = &mut bytes[..line.within(ROOM)];
        buffer.fill(line.byte());
        let file = &self.file[..self.size];
        let written = saved::save(file, self.place, &self.cells[..self.count], buffer);
        tell_saved(rt, written, buffer)
    }
}
