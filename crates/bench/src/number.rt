// The numbers of a command line: 1 to 10 digits, a minus before them only in a value, nothing else. (`str::parse` also takes a plus.)
ghost use Rattle.std.specs.Prelude.{◌≡◌, cond, Some, None};
ghost use Rattle.bench.specs.Numbers.{whole, longest, natural_of, integer_of};

use words::Number;

// The number at the start of a word, where it is all of the word, and that has at most so many bytes.
fn all<T: Copy>(word: &[u8], most: usize, n: Number<T>) -> Option<T>
    ensures { result ≡ cond (whole word.now most n.next) (Some n.value) None }
{
    if word.is_empty() || word.len() > most || n.next != word.len() {
        return None;
    }
    Some(n.value)
}

// Digits up to 4294967295.
pub(crate) fn read_natural(word: &[u8]) -> Option<u32>
    ensures { result ≡ natural_of word.now }
{
    let n = all(word, 10, words::read_digits(word, 0))?;
    u32::try_from(n).ok()
}

// The length that digits with this beginning may have.
fn longest(word: &[u8]) -> usize
    ensures { result ≡ longest word.now }
{
    if words::byte_at(word, 0) == b'-' {
        11
    } else {
        10
    }
}

// An optional minus and digits, within i32.
pub(crate) fn read_integer(word: &[u8]) -> Option<i32>
    ensures { result ≡ integer_of word.now }
{
    let n = all(word, longest(word), words::read_signed(word, 0))?;
    i32::try_from(n).ok()
}
