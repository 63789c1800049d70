// The walk over a file's records that every pass makes: a record's own length and its kind, at any position, and where each starts.
ghost use Rattle.std.specs.Prelude.{◌≡◌, ◌+◌, ◌^◌, ◌<◌, min, length};
ghost use Rattle.std.specs.Iterator.{YieldsFirst, item_count};
ghost use Rattle.records.specs.Walk.{stride, kind_at, offsets};
ghost use Rattle.records.specs.Left.{offsets_left};

use codes::short;

// A record has at least so many bytes: its length and its kind.
const LEAST: usize = 4;

// How far the next record is from the one at `at`: its length, 4 where it says less.
pub fn stride(file: &[u8], at: usize) -> usize
    ensures { (result ≡ stride file.now at) × (result < 2 ^ 16) }
{
    LEAST.max(short(file, at))
}

// The kind of the record at `at`, 0 past the end.
#[tactic(auto, using(crate::proofs::Cases::kind_out))]
pub fn kind_at(file: &[u8], at: usize) -> usize
    ensures { (result ≡ kind_at file.now at) × (result < 2 ^ 16) }
{
    if at < file.len() {
        short(file, at + 2)
    } else {
        0
    }
}

// Where the next record starts, or the end where there is none: no sum can wrap.
pub fn next_at(file: &[u8], at: usize) -> usize
    ensures { result ≡ min (length file.now) (at + stride file.now at) }
{
    file.len().min(at.saturating_add(stride(file, at)))
}

// Where each record starts, in turn.
#[derive(Drop)]
pub struct Offsets<'a> {
    file: &'a [u8],
    at: usize,
}

impl<'a> Offsets<'a> {
    // All of a file's.
    #[tactic(auto, unfolding(crate::specs::Walk::offsets))]
    pub fn of(file: &'a [u8]) -> Self
        ensures { offsets_left result ≡ offsets file.now }
    {
        Offsets { file, at: 0 }
    }
}

impl<'a> Iterator for Offsets<'a> {
    type Item = usize;

    ghost next_gives = { YieldsFirst offsets_left };

    ghost remaining = { item_count offsets_left };

    #[tactic(auto, using(crate::proofs::Offsets::leaving))]
    fn next(&mut self) -> Option<usize> {
        let at = self.at;
        if self.file.len() <= at {
            return None;
        }
        self.at += stride(self.file, at);
        Some(at)
    }
}
