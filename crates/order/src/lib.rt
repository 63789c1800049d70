// Refusal 6: whether the records of a file stand in a valid order, by the kinds alone.
#![tactic(auto)]

ghost use Rattle.std.specs.Prelude.{◌≡◌};
ghost use Rattle.order.specs.Order.{order_of};
ghost use Rattle.records.specs.Walk.{offsets, kinds_at};

pub use open::Open;
use records::walk::{Offsets, kind_at};

mod open;

// Whether a file's records stand in a valid order, whatever the bytes; if not, the first record after which no order is valid, or how many there
// are where they stop too soon.
pub fn order(file: &[u8]) -> Result<(), usize>
    ensures { result ≡ order_of (kinds_at file.now (offsets file.now)) }
{
    let mut open = Open::new();
    // Stays: (d) n, which counts the records that were passed: the answer at the end too, where `enumerate` would leave them to be counted again.
    let mut n: usize = 0;
    for at in Offsets::of(file) {
        open = open.after(kind_at(file, at));
        if open.is_misplaced() {
            return Err(n);
        }
        n += 1;
    }
    if open.is_whole() { Ok(()) } else { Err(n) }
}
