// Taking the files of a command.

ghost use Rattle.std.specs.Prelude.{◌≡◌, ◌≤◌, map};
ghost use Rattle.ilspy_cli.specs.Files.{HasNotFailed, shelved, wanted};
ghost use Rattle.ilspy_cli.specs.Taking.{IsTaken};
ghost use Rattle.ilspy_cli.specs.Outcome.{HasNotRisen};

use dc_base::{Or, Text};
use dc_outside::{Shelf, TakeFault};
use std::alloc::Global;

/// The first file that wasn't given, and why.
#[derive(Debug, Drop)]
pub(crate) enum Untaken<'a> {
    /// It is longer than its limit.
    TooBig(&'a Text),
    /// Its read failed.
    Unread(&'a Text),
}

/// The bytes of the files, in their order, up to the first that isn't given. Each is asked for once.
pub(crate) fn take_all<'a, S: Shelf>(
    alloc: Global,
    shelf: &mut S,
    files: &[(&'a Text, u64)],
) -> Result<Vec<Vec<u8>>, Or<Untaken<'a>>>
    ensures taken { IsTaken (shelved (S.files shelf.old) (S.faults shelf.old) (S.faults shelf.new) (S.last shelf.old) (S.last shelf.new) (S.given shelf.old) (S.given shelf.new))
        (map (λ file. wanted file.0.now file.1) files.now) result }
    ensures last { HasNotRisen (S.faults shelf.old) (S.faults shelf.new) → S.last shelf.new ≡ S.last shelf.old }
    ensures never_falls { S.faults shelf.old ≤ S.faults shelf.new }
    ensures files { S.files shelf.new ≡ S.files shelf.old }
{
    let mut contents = Vec::new(alloc);
    for (name, limit) in files {
        match shelf.take(alloc, name, *limit) {
            Ok(bytes) => contents.push(bytes)?,
            Err(Or::NoMemory) => return Err(Or::NoMemory),
            Err(Or::Fault(TakeFault::Longer(_))) => return Err(Or::Fault(Untaken::TooBig(name))),
            Err(Or::Fault(TakeFault::Failed)) => return Err(Or::Fault(Untaken::Unread(name))),
        }
    }
    Ok(contents)
}
