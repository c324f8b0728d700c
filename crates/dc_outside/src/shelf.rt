// Where files are read from.

ghost use Rattle.std.specs.Prelude.{◌≡◌, ◌≤◌, ℕ, List, Option};
ghost use Rattle.dc_outside.specs.Outside.{Given, given_after, Takes, CountsTake};

use dc_base::{Or, Text};
use std::alloc::Global;
use thiserror::Error;

/// Why a file wasn't given. `Longer` has a number of bytes above the limit, and the file has that many or more.
/// `Failed` is a failed read or a file that isn't there.
#[derive(Clone, Copy, Debug, Error)]
pub enum TakeFault {
    #[error("the file has {0} bytes or more, and fewer were asked for")]
    Longer(u64),
    #[error("the file can't be read")]
    Failed,
}

/// Files by name.
pub trait Shelf {
    /// The bytes of each file by its name; none where the shelf doesn't tell them.
    ghost files: { Self → Option (List ℕ → Option (List ℕ)) };

    /// How many calls have failed, up to 2^64 - 1.
    ghost faults: { Self → ℕ };

    /// The name that the last failed call was given.
    ghost last: { Self → Option (List ℕ) };

    /// What the calls gave so far, in order, and under which names, also where the files aren't told. A shelf that has no
    /// use for it keeps a `ShelfLog`.
    ghost given: { Self → List Given };

    /// All bytes of the file, at most `limit` of them. A file that isn't there is a failed call.
    fn take(&mut self, alloc: Global, name: &Text, limit: u64) -> Result<Vec<u8>, Or<TakeFault>>
        // An answer that gives a file or says that it is longer is about the file of that name, where files are told.
        ensures takes { Takes (files self.old) name.now limit result }

        // What it gives is kept under its name.
        ensures gives { given self.new ≡ given_after (given self.old) name.now result }

        // A failed call raises the count and leaves its name; no other call touches either.
        ensures counts { CountsTake name.now (faults self.old) (faults self.new) (last self.old)
            (last self.new) result }
        ensures never_falls { faults self.old ≤ faults self.new }

        // Reading changes no file.
        ensures files { files self.new ≡ files self.old };
}
