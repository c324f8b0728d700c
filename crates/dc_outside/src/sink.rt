// Where bytes are written to.

ghost use Rattle.std.specs.Prelude.{◌≡◌, ◌<◌, ◌≤◌, ℕ, List, length};
ghost use Rattle.dc_outside.specs.Outside.{Puts, CountsPut};

use thiserror::Error;

/// A write that failed: nothing of its piece was taken.
#[derive(Clone, Copy, Debug, Error)]
#[error("the write failed")]
pub struct Failed;

/// Takes bytes in order.
pub trait Sink {
    /// All bytes that were taken, in order. A sink that doesn't keep them keeps a `SinkLog`.
    ghost written: { Self → List ℕ };

    /// How many calls have failed, up to 2^64 - 1.
    ghost faults: { Self → ℕ };

    /// Takes a front of the piece, and answers its length in bytes. It takes no memory.
    fn put(&mut self, piece: &[u8]) -> Result<usize, Failed>
        requires { 0 < length piece.now }

        // What was taken stands at the end of the bytes written; a failed call takes nothing.
        ensures puts { Puts piece.now (written self.old) (written self.new) result }

        // A failed call raises the count, and no other touches it.
        ensures counts { CountsPut (faults self.old) (faults self.new) result }
        ensures never_falls { faults self.old ≤ faults self.new };
}
