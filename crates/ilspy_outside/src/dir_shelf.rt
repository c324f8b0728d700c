// A shelf over the files of a disk.

ghost use Rattle.std.specs.Prelude.{◌≡◌, ◌≤◌, [], None, IfOk, option_map};
ghost use Rattle.ilspy_outside.specs.System.{IsFront, IsWithin};

use crate::Disk;
use crate::front::read_front;
use dc_base::{Or, Text};
use dc_outside::{Shelf, ShelfLog, TakeFault};
use std::alloc::Global;
use std::io::{self, ErrorKind};

/// The files of a disk, by their paths. It tells what the disk tells.
#[derive(Drop)]
pub struct DirShelf<D: Disk> {
    disk: D,
    faults: u64,
    last: Option<Text>,
    log: ShelfLog,
}

impl<D: Disk> DirShelf<D> {
    /// No call has failed yet, and none has given anything.
    pub fn of(disk: D) -> Self
        ensures files { ⟦<DirShelf<D> as Shelf>⟧.files result ≡ D.files disk }
        ensures faults { ⟦<DirShelf<D> as Shelf>⟧.faults result ≡ 0 }
        ensures last { ⟦<DirShelf<D> as Shelf>⟧.last result ≡ None }
        ensures given { ⟦<DirShelf<D> as Shelf>⟧.given result ≡ [] }
    {
        DirShelf {
            disk,
            faults: 0,
            last: None,
            log: ShelfLog::new(),
        }
    }
}

impl<D: Disk> Shelf for DirShelf<D> {
    ghost files = { λ s. D.files s.disk };

    ghost faults = { λ s. s.faults };

    ghost last = { λ s. option_map (λ name. name) s.last };

    ghost given = { λ s. s.log.given };

    fn take(&mut self, alloc: Global, name: &Text, limit: u64) -> Result<Vec<u8>, Or<TakeFault>> {
        let copy = name.copied(alloc)?;
        match front_of(&self.disk, alloc, name.as_str(), limit) {
            Ok(front) => {
                let answer = within(front, limit);
                self.log = self.log.and(name, &answer);
                answer
            }
            Err(e) if e.kind() == ErrorKind::OutOfMemory => Err(Or::NoMemory),
            Err(_) => {
                self.faults = self.faults.saturating_add(1);
                self.last = Some(copy);
                Err(Or::Fault(TakeFault::Failed))
            }
        }
    }
}

// The first bytes of the file at the path: all of them, or one more than the limit.
fn front_of<D: Disk>(disk: &D, alloc: Global, path: &str, limit: u64) -> io::Result<Vec<u8>>
    ensures { IfOk result (λ front. IsFront (D.files disk.now) path.now limit front.items) }
{
    let mut file = disk.open(path)?;
    read_front(&mut file, alloc, limit)
}

// The bytes, where there aren't more than the limit, and else how many there are.
fn within(front: Vec<u8>, limit: u64) -> Result<Vec<u8>, Or<TakeFault>>
    ensures { IsWithin front limit result }
{
    let len = front.len() as u64;
    if len > limit {
        return Err(Or::Fault(TakeFault::Longer(len)));
    }
    Ok(front)
}

#[cfg(test)]
mod tests {
    use super::*;
    use std::io::Read;
    use std::test::Fail;

    // A file that is interrupted before each read, and gives a byte at a time.
    #[derive(Drop)]
    struct Slow<'a> {
        left: &'a [u8],
        is_interrupted: bool,
    }

    impl Read for Slow<'_> {
        fn read(&mut self, buf: &mut [u8]) -> io::Result<usize> {
            self.is_interrupted = !self.is_interrupted;
            if self.is_interrupted {
                return Err(io::Error::from(ErrorKind::Interrupted));
            }
            let [first, rest @ ..] = self.left else {
                return Ok(0);
            };
            if buf.is_empty() {
                return Ok(0);
            }
            buf[0] = *first;
            self.left = rest;
            Ok(1)
        }
    }

    // A disk with one file.
    #[derive(Drop)]
    struct OneFile<'a> {
        path: &'a str,
        bytes: &'a [u8],
    }

    impl<'a> Disk for OneFile<'a> {
        type File = Slow<'a>;

        ghost use Rattle.std.specs.Prelude.{None};

        ghost files = { λ _. None };

        fn open(&self, path: &str) -> io::Result<Slow<'a>> {
            if path != self.path {
                return Err(io::Error::from(ErrorKind::NotFound));
            }
            Ok(Slow {
                left: self.bytes,
                is_interrupted: false,
            })
        }
    }

    #[test]
    fn reads_a_slow_file_up_to_one_byte_past_the_limit(rt: HostRuntime) -> Result<(), Fail> {
        let alloc = rt.alloc();
        let mut shelf = DirShelf::of(OneFile {
            path: "f",
            bytes: &[1, 2, 3, 4],
        });
        for (name, limit, want) in [
            ("f", 4, "Ok([1, 2, 3, 4])"),
            ("f", 3, "Err(Fault(Longer(4)))"),
            ("f", 2, "Err(Fault(Longer(3)))"),
            ("g", 4, "Err(Fault(Failed))"),
            ("f", u64::MAX, "Ok([1, 2, 3, 4])"),
        ] {
            let answer = shelf.take(alloc, &Text::of(alloc, name)?, limit);
            assert_eq!(rt;
                format!(in alloc; "{answer:?}")?.as_str(),
                want,
                "at {name} {limit}"
            );
        }
        Ok(())
    }
}
