// Numbers as text: written into a lent buffer at a position, and read at one; bytes in hexadecimal; lines. What the programs print and read with.
#![tactic(auto)]

ghost use Rattle.std.specs.Prelude.{◌≡◌, ◌+◌, ◌*◌, ◌-◌, ◌≤◌, ◌<◌, min, leb, length, get_or, drop, set};
ghost use Rattle.std.proofs.lemmas.List.Edits.{sets};
ghost use Rattle.words.specs.Zeros.{Filled};
ghost use Rattle.words.specs.Words.{put, after, last_digit, decimal_by, decimal, signed_decimal, limit, digit_count, digit_value, signed_next, signed_value, hex_digit, hex_byte, hex_bytes, Counts, nearest, next_line};

// The largest number that is read, `limit`.
const LIMIT: u64 = 1_000_000_000_000_000_000;

// An array full of one value, made apart so that no goal counts its elements one by one.
pub fn full<T: Copy, const N: usize>(x: T) -> [T; N]
    ensures { Filled x N result }
{
    [x; N]
}

// A number that was read, and the position after it.
#[derive(Clone, Copy)]
pub struct Number<T> {
    pub value: T,
    pub next: usize,
}

// Whether `need` bytes from `at` on lie within `len`.
fn has_room(len: usize, at: usize, need: usize) -> bool
    ensures { result ≡ leb (at + need) len }
{
    at <= len && need <= len - at
}

// Writes the bytes of word at `at` and answers the position after them; where they do not fit, writes nothing and answers `at`.
pub fn put_bytes(buf: &mut [u8], at: usize, word: &[u8]) -> usize
    ensures value { result ≡ after buf.old at word.now }
    ensures buf_after { buf.new ≡ put buf.old at word.now }
{
    if !has_room(buf.len(), at, word.len()) {
        return at;
    }
    let end = at + word.len();
    buf[at..end].copy_from_slice(word);
    end
}

fn put_digit(text: &mut [u8; 21], at: usize, n: u64) -> usize
    requires { at < 21 }
    ensures value { result ≡ at + 1 }
    ensures text_after { text.new ≡ set text.old at (last_digit n) }
{
    text[at] = b'0' + (n % 10) as u8;
    at + 1
}

// The digits of n at `at`, at most left + 1 of them.
fn digits(text: &mut [u8; 21], at: usize, n: u64, left: usize) -> usize
    requires { at + left < 21 }
    ensures value { result ≡ at + length (decimal_by left n) }
    ensures text_after { text.new ≡ sets text.old at (decimal_by left n) }
{
    if left == 0 || n < 10 {
        return put_digit(text, at, n);
    }
    let end = digits(text, at, n / 10, left - 1);
    put_digit(text, end, n)
}

// Writes n in decimal, as put_bytes does.
pub fn put_decimal(buf: &mut [u8], at: usize, n: u64) -> usize
    ensures value { result ≡ after buf.old at (decimal n) }
    ensures buf_after { buf.new ≡ put buf.old at (decimal n) }
{
    let mut text = [0u8; 21];
    let end = digits(&mut text, 0, n, 19);
    put_bytes(buf, at, &text[..end])
}

// Writes z in decimal, with a minus where it is below 0, as put_bytes does.
pub fn put_signed(buf: &mut [u8], at: usize, z: i64) -> usize
    ensures value { result ≡ after buf.old at (signed_decimal z) }
    ensures buf_after { buf.new ≡ put buf.old at (signed_decimal z) }
{
    if z >= 0 {
        return put_decimal(buf, at, z.unsigned_abs());
    }
    let mut text = [0u8; 21];
    text[0] = b'-';
    let end = digits(&mut text, 1, z.unsigned_abs(), 19);
    put_bytes(buf, at, &text[..end])
}

// The number of the digits of v and then the digit b, `limit` at most.
fn with_digit(v: u64, b: u8) -> u64
    requires { (v ≤ limit) × (48 ≤ b) × (b ≤ 57) }
    ensures { result ≡ min (10 * v + (b - 48)) limit }
{
    (10 * v + u64::from(b - b'0')).min(LIMIT)
}

// The digits at `at`: their number, and the position after them.
pub fn read_digits(s: &[u8], at: usize) -> Number<u64>
    ensures next_value { result.next ≡ at + digit_count (drop at s.now) }
    ensures value_value { result.value ≡ digit_value 0 (drop at s.now) }
    ensures within_limit { result.value ≤ limit }
{
    let mut n = Number { value: 0, next: at };
    for i in at..s.len() {
        if !s[i].is_ascii_digit() {
            return n;
        }
        n = Number {
            value: with_digit(n.value, s[i]),
            next: i + 1,
        };
    }
    n
}

// The byte at i, 0 past the end.
pub fn byte_at(s: &[u8], i: usize) -> u8
    ensures { result ≡ get_or s.now i 0 }
{
    s.get(i).copied().unwrap_or(0)
}

// Digits at `at`, or a minus and digits.
pub fn read_signed(s: &[u8], at: usize) -> Number<i64>
    ensures next_value { result.next ≡ signed_next s.now at }
    ensures value_value { result.value ≡ signed_value s.now at }
{
    if byte_at(s, at) != b'-' {
        let n = read_digits(s, at);
        return Number {
            value: n.value as i64,
            next: n.next,
        };
    }
    let n = read_digits(s, at + 1);
    // A minus alone is no number.
    let next = if n.next == at + 1 { at } else { n.next };
    Number {
        value: -(n.value as i64),
        next,
    }
}

// The value of a hexadecimal digit.
fn hex_digit(b: u8) -> Option<u8>
    ensures { result ≡ hex_digit b }
{
    match b {
        b'0'..=b'9' => Some(b - b'0'),
        b'a'..=b'f' => Some(b - b'a' + 10),
        _ => None,
    }
}

// The byte that the two hexadecimal digits at `at` make.
pub fn hex_byte(s: &[u8], at: usize) -> Option<u8>
    ensures { result ≡ hex_byte s.now at }
{
    let high = hex_digit(byte_at(s, at))?;
    let low = hex_digit(byte_at(s, at + 1))?;
    Some(16 * high + low)
}

// Puts the bytes whose digits stand from `at` on at the front of buf, as many as it holds; how many they are.
pub fn hex_bytes(s: &[u8], at: usize, buf: &mut [u8]) -> usize
    ensures value { result ≡ length (hex_bytes (length buf.old) s.now at) }
    ensures buf_after { buf.new ≡ sets buf.old 0 (hex_bytes (length buf.old) s.now at) }
    ensures counts { Counts result buf.new }
{
    let mut i = at;
    for n in 0..buf.len() {
        let Some(b) = hex_byte(s, i) else { return n };
        buf[n] = b;
        i += 2;
    }
    buf.len()
}

// The nearest i32.
pub fn nearest(v: i64) -> i32
    ensures { result ≡ nearest v }
{
    v.clamp(i64::from(i32::MIN), i64::from(i32::MAX)) as i32
}

// Where the line after that at `at` stands.
pub fn next_line(s: &[u8], at: usize) -> usize
    ensures { result ≡ next_line s.now at }
{
    for i in at..s.len() {
        if s[i] == b'\n' {
            return i + 1;
        }
    }
    at.max(s.len())
}
