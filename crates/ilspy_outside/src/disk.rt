// Where files are opened.

ghost use Rattle.std.specs.Prelude.{ℕ, List, Option, IfOk};
ghost use Rattle.ilspy_outside.specs.System.{IsOpened};

use std::fs;
use std::io::{self, Read};
use std::rt::Files;

/// Files that can be opened by their paths.
pub trait Disk {
    /// A file that is open, and is read from its start.
    type File: Read + Drop;

    /// The bytes of each file by its path; none where the disk doesn't tell them.
    ghost files: { Self → Option (List ℕ → Option (List ℕ)) };

    /// Opens the file at the path.
    fn open(&self, path: &str) -> io::Result<Self::File>
        // What it can be read of is the file at that path, where files are told.
        ensures { IfOk result (λ file. IsOpened (files self.now) path.now (Self.File.remaining file)) };
}

/// The files of the system. It tells none of their bytes.
#[derive(Drop)]
pub struct SystemDisk<'a, R: Files> {
    rt: &'a R,
}

impl<'a, R: Files> SystemDisk<'a, R> {
    pub fn of(rt: &'a R) -> Self {
        SystemDisk { rt }
    }
}

impl<R: Files> Disk for SystemDisk<'_, R> {
    type File = R::File;

    ghost use Rattle.std.specs.Prelude.{None};

    ghost files = { λ _. None };

    fn open(&self, path: &str) -> io::Result<R::File> {
        fs::open(self.rt, path)
    }
}
