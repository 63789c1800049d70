// The file and the store, copied into arrays of a fixed size for a run, and the cells copied back: such an array goes to a function as one pointer.
ghost use Rattle.std.specs.Prelude.{◌≡◌};
ghost use Rattle.machine.specs.Copies.{over};

// The first slice laid over the second, as far as both go. (It writes where the caller has the room: an array that is handed out is
// copied once more, and takes as much stack again.)
pub fn lay<T: Copy>(from: &[T], to: &mut [T])
    ensures { to.new ≡ over from.now to.old }
{
    let n = to.len().min(from.len());
    to[..n].copy_from_slice(&from[..n]);
}
