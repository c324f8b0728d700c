// The words of the process, and the number that it ends with.

ghost use Rattle.std.specs.Prelude.{◌≡◌, IfOk, map};
ghost use Rattle.std.specs.String.{string_bytes};
ghost use Rattle.std.specs.Vec.Iter.{into_iter_items};
ghost use Rattle.std.specs.Process.{exit_status};
ghost use Rattle.ilspy_cli.specs.Files.{shelved};
ghost use Rattle.ilspy_cli.specs.Outcome.{sunk};
ghost use Rattle.ilspy_cli.specs.Process.{AreWords, HasEnded};

use crate::{Status, run};
use dc_base::{NoMemory, Text};
use dc_outside::{Gate, Shelf, Sink};
use std::alloc::Global;
use std::process::ExitCode;
use std::rt::Env;
use std::thread::Threads;
use std::{env, io};

/// Runs the program on the words of the process, where memory was there for them, and gives what `main` returns.
pub fn run_process<R: Threads + Sync, S: Shelf, K: Sink, G: Gate + Sync>(
    rt: &R,
    alloc: Global,
    words: &Result<Vec<Text>, NoMemory>,
    shelf: &mut S,
    out: &mut K,
    gate: &G,
) -> ExitCode
    // The number is that of a status with which the run's outcome holds.
    ensures { HasEnded words.now
        (shelved (S.files shelf.old) (S.faults shelf.old) (S.faults shelf.new) (S.last shelf.old) (S.last shelf.new)
        (S.given shelf.old) (S.given shelf.new))
        (sunk (K.written out.old) (K.written out.new) (K.faults out.old) (K.faults out.new)) (exit_status result) }
{
    match words {
        Ok(words) => run(rt, alloc, words.as_slice(), shelf, out, gate).exit_code(),
        Err(_) => Status::NoMemory.exit_code(),
    }
}

/// The words of the process, the program's name first. Where they aren't text as a whole, there are none, which is a faulty
/// command line.
pub fn process_words<R: Env + AllocGlobal>(rt: &R) -> Result<Vec<Text>, NoMemory> {
    words_of(rt.alloc(), env::args(rt))
}

// What the system gave of the words.
fn words_of(alloc: Global, args: io::Result<env::Args>) -> Result<Vec<Text>, NoMemory>
    ensures { AreWords args result }
{
    match args {
        Ok(args) => all_texts(alloc, args),
        Err(e) if e.kind() == io::ErrorKind::OutOfMemory => Err(NoMemory),
        Err(_) => Ok(Vec::new(alloc)),
    }
}

fn all_texts(alloc: Global, args: env::Args) -> Result<Vec<Text>, NoMemory>
    ensures { IfOk result (λ words. words.items ≡ map string_bytes (into_iter_items args)) }
{
    let mut words = Vec::new(alloc);
    for word in args {
        words.push(Text::from_string(word))?;
    }
    Ok(words)
}
