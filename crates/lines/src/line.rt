ghost use Rattle.std.specs.Prelude.{◌≤◌, length};

// A command line as it is read: the stream, and how far that is read. A number or a sign of more may stand past the line's end.
#[derive(Clone, Copy)]
pub(crate) struct Line<'a> {
    pub(crate) s: &'a [u8],
    pub(crate) at: usize,
}

impl<'a> Line<'a> {
    // The line at `at`.
    pub(crate) fn new(s: &'a [u8], at: usize) -> Self {
        Line { s, at }
    }

    // Goes past a byte, within the stream.
    fn skip(&mut self) {
        if self.at < self.s.len() {
            self.at += 1;
        }
    }

    // The command's letter.
    pub(crate) fn command(&mut self) -> u8 {
        let c = words::byte_at(self.s, self.at);
        self.skip();
        c
    }

    // Whether a word follows.
    pub(crate) fn more(&self) -> bool {
        words::byte_at(self.s, self.at) == b' '
    }

    // The number of the next word.
    pub(crate) fn number(&mut self) -> u64 {
        self.skip();
        let n = words::read_digits(self.s, self.at);
        self.at = n.next;
        n.value
    }

    // That of the nearest u8.
    pub(crate) fn byte(&mut self) -> u8 {
        u8::try_from(self.number()).unwrap_or(u8::MAX)
    }

    // That of the nearest u16.
    pub(crate) fn half(&mut self) -> u16 {
        u16::try_from(self.number()).unwrap_or(u16::MAX)
    }

    // That of the nearest u32.
    pub(crate) fn whole(&mut self) -> u32 {
        u32::try_from(self.number()).unwrap_or(u32::MAX)
    }

    // The number of the next word, or `room` where that is less.
    pub(crate) fn within(&mut self, room: usize) -> usize
        ensures { result ≤ room }
    {
        usize::try_from(self.number()).unwrap_or(room).min(room)
    }

    // The nearest cell to the next word, which may have a minus.
    pub(crate) fn cell(&mut self) -> i32 {
        self.skip();
        let v = words::read_signed(self.s, self.at);
        self.at = v.next;
        words::nearest(v.value)
    }

    // The bytes of the next word, in hexadecimal, at the front of buf; how many they are.
    pub(crate) fn bytes(&mut self, buf: &mut [u8]) -> usize
        ensures { result ≤ length buf.new }
    {
        if self.more() {
            self.skip();
        }
        words::hex_bytes(self.s, self.at, buf)
    }
}
