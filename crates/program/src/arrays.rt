// The table of a file's arrays: 16 starts among the cells, then 16 lengths.
ghost use Rattle.std.specs.Prelude.{◌≡◌};
ghost use Rattle.program.specs.Arrays.{arrays_at};

// A file has at most so many arrays.
const ARRAYS: usize = 16;

// Where each array starts, and how long it is, whatever the bytes; zeros where there is none.
// Stays: (d) one array of both halves, for `evaluate` reads array a at `a` and at `a + 16`: a struct of two would only name the halves.
pub fn arrays(file: &[u8]) -> [u16; 32]
    ensures { result ≡ arrays_at file.now }
{
    let n = codes::short(file, 6).min(ARRAYS);
    let mut start = codes::short(file, 4);
    let mut table = [0u16; 32];
    for i in 0..n {
        let length = codes::short(file, 8 + 2 * i);
        table[i] = (start % 65536) as u16;
        table[ARRAYS + i] = length as u16;
        start += length;
    }
    table
}
