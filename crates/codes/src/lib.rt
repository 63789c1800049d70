// Numbers as bytes: u16 and i32, little-endian, read from and written to slices. Every function is total.
#![tactic(auto)]

ghost use Rattle.std.specs.Prelude.{◌≡◌, ◌^◌, ◌<◌, get_or};
ghost use Rattle.codes.specs.Codes.{bytes16, cell_bytes, word16};
ghost use Rattle.codes.specs.Numbers.{cell_at, written};

// The byte at i, 0 past the end.
pub fn byte(s: &[u8], i: usize) -> usize
    ensures { (result ≡ get_or s.now i 0) × (result < 256) }
{
    if i < s.len() { usize::from(s[i]) } else { 0 }
}

// The u16 at i, with zeros past the end.
// Stays: (d) a usize with its bound and no u16, since callers add it to positions and index by it.
pub fn short(s: &[u8], i: usize) -> usize
    ensures { (result ≡ word16 s.now i) × (result < 2 ^ 16) }
{
    // Stays: (b) with slice patterns over s.get(i..) the check takes 1.2 and 1.4 times as long (arrays and padded of speed/workloads).
    if i < s.len() && i + 2 <= s.len() {
        usize::from(u16::from_le_bytes([s[i], s[i + 1]]))
    } else {
        byte(s, i)
    }
}

// The i32 at i, with zeros past the end.
pub fn long(s: &[u8], i: usize) -> i32
    ensures { result ≡ cell_at s.now i }
{
    if s.len() <= i {
        0
    } else if i + 4 <= s.len() {
        i32::from_le_bytes([s[i], s[i + 1], s[i + 2], s[i + 3]])
    } else {
        i32::from_le_bytes([s[i], byte(s, i + 1) as u8, byte(s, i + 2) as u8, 0])
    }
}

// Writes the bytes at `at`, or nothing where they do not fit.
#[tactic(auto, using(crate::proofs::Cases::putting))]
fn put(buf: &mut [u8], at: usize, bytes: &[u8])
    ensures { buf.new ≡ written buf.old at bytes.now }
{
    if at <= buf.len() && bytes.len() <= buf.len() - at {
        buf[at..at + bytes.len()].copy_from_slice(bytes);
    }
}

// Writes v at `at`, or nothing where its two bytes do not fit.
pub fn put_short(buf: &mut [u8], at: usize, v: u16)
    ensures { buf.new ≡ written buf.old at (bytes16 v) }
{
    put(buf, at, &u16::to_le_bytes(v));
}

// Writes v at `at`, or nothing where its four bytes do not fit.
pub fn put_long(buf: &mut [u8], at: usize, v: i32)
    ensures { buf.new ≡ written buf.old at (cell_bytes v) }
{
    put(buf, at, &i32::to_le_bytes(v));
}
