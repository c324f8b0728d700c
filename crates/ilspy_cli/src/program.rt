// The top call.

ghost use Rattle.std.specs.Prelude.{◌≡◌, ◌⊎◌, ◌<◌, ◌≤◌, ℕ, List, Option, Some};
ghost use Rattle.dc_outside.specs.Outside.{Given};
ghost use Rattle.ilspy_cli.specs.declared.status.Status.{Status as StatusOf};
ghost use Rattle.ilspy_cli.specs.Files.{shelved};
ghost use Rattle.ilspy_cli.specs.Outcome.{HasNotRisen, IsAfterReadFault, IsDue, IsOutcome, IsWithoutFault, MeansTheSame, sunk};

use crate::Status;
use crate::answer::answer_words;
use crate::due::one_due;
use crate::put::put_all;
use dc_base::Text;
use dc_outside::{Gate, Shelf, Sink};
use ilspy_body::text_means_the_same;
use std::alloc::Global;
use std::thread::Threads;

/// Runs the program on the words of its command line, the program's name first.
///
/// `body FILE` writes the method of the file's lone body, `show ASM` the assembly's name and the counts of its types,
/// fields, methods and properties. All text is made before the first byte is put, so want of memory leaves the sink as it
/// was. Pieces of at most 4,096 bytes are put, and again what a put didn't take.
pub fn run<R: Threads + Sync, S: Shelf, K: Sink, G: Gate + Sync>(
    _rt: &R,
    alloc: Global,
    words: &[Text],
    shelf: &mut S,
    out: &mut K,
    _gate: &G,
) -> Status
    // What is written, and with which status.
    ensures outcome { IsOutcome
        (IsDue (shelved (S.files shelf.old) (S.faults shelf.old) (S.faults shelf.new) (S.last shelf.old) (S.last shelf.new)
        (S.given shelf.old) (S.given shelf.new)) words.now)
        (sunk (K.written out.old) (K.written out.new) (K.faults out.old) (K.faults out.new)) result }

    // The theorem: the text that `body` writes means what the bytes mean that the shelf gave under the file's name.
    ensures means_the_same { MeansTheSame
        (shelved (S.files shelf.old) (S.faults shelf.old) (S.faults shelf.new) (S.last shelf.old) (S.last shelf.new)
        (S.given shelf.old) (S.given shelf.new)) words.now
        (sunk (K.written out.old) (K.written out.new) (K.faults out.old) (K.faults out.new)) result }

    // Where the outside counts no fault, what is due for the files is what is written, want of memory aside.
    ensures exact { HasNotRisen (S.faults shelf.old) (S.faults shelf.new) → HasNotRisen (K.faults out.old) (K.faults out.new)
        → (files : List ℕ → Option (List ℕ)) → S.files shelf.old ≡ Some files → (given : List Given) (status : StatusOf) (text : List ℕ)
        → IsDue (shelved (S.files shelf.old) (S.faults shelf.old) (S.faults shelf.new) (S.last shelf.old) (S.last shelf.new)
        (S.given shelf.old) given) words.now status text
        → (result ≡ status) ⊎ (result ≡ Status.NoMemory) }

    ensures without_faults { HasNotRisen (S.faults shelf.old) (S.faults shelf.new) → HasNotRisen (K.faults out.old) (K.faults out.new)
        → IsWithoutFault result }

    // A fault that the outside counts is answered as one.
    ensures shelf_rose { S.faults shelf.old < S.faults shelf.new → IsAfterReadFault result }
    ensures sink_rose { K.faults out.old < K.faults out.new → result ≡ Status.WriteFault }

    // The last failed name stays where no read failed.
    ensures last { HasNotRisen (S.faults shelf.old) (S.faults shelf.new) → S.last shelf.new ≡ S.last shelf.old }
    ensures files { S.files shelf.new ≡ S.files shelf.old }
    ensures never_falls { S.faults shelf.old ≤ S.faults shelf.new }
{
    let Ok(answer) = answer_words(alloc, words, shelf) else {
        return Status::NoMemory;
    };
    one_due();
    text_means_the_same();
    match put_all(out, answer.text.as_str().as_bytes()) {
        Ok(()) => answer.status,
        Err(_) => Status::WriteFault,
    }
}
