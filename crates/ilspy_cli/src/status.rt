// How a run ends.

ghost use Rattle.std.specs.Prelude.{◌≡◌};

use std::process::ExitCode;

/// How a run ended. The process ends with the number of this (see [`Status::code`]).
#[derive(Clone, Copy, Debug, PartialEq, Eq)]
pub enum Status {
    /// All that was asked for was written.
    Done,
    /// The input isn't taken; the line says why.
    Refused,
    /// The words are out of form.
    Usage,
    /// A file couldn't be read.
    ReadFault,
    /// The sink failed; what it took is a front of what was due.
    WriteFault,
    /// Memory was wanted and not there; nothing was written.
    NoMemory,
    /// The answer to the question is no.
    No,
}

impl Status {
    ghost use Rattle.std.specs.Prelude.{◌≡◌};
    ghost use Rattle.std.specs.Process.{exit_status};
    ghost use Rattle.ilspy_cli.specs.Status.{code_of};

    /// The number that the process ends with.
    pub fn code(self) -> u8
        ensures { result ≡ code_of self }
    {
        match self {
            Status::Done => 0,
            Status::Refused => 1,
            Status::Usage => 2,
            Status::ReadFault => 3,
            Status::WriteFault => 4,
            Status::NoMemory => 5,
            Status::No => 6,
        }
    }

    /// What `main` returns.
    pub fn exit_code(self) -> ExitCode
        ensures { exit_status result ≡ code_of self }
    {
        ExitCode::from(self.code())
    }
}
