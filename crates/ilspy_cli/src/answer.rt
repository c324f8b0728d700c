// What is due for some words.

ghost use Rattle.std.specs.Prelude.{◌≡◌, ◌≤◌, length, map, IfOk};
ghost use Rattle.ilspy_cli.specs.Files.{AreWithin, files_of, shelved};
ghost use Rattle.ilspy_cli.specs.Taking.{IsUntakenDue};
ghost use Rattle.ilspy_cli.specs.Outcome.{HasNotRisen, IsDue, IsRequestDue, IsBodyDue};

use crate::shown::show;
use crate::taking::{Untaken, take_all};
use crate::words::{Request, asked};
use crate::{Status, lines};
use cil_lone::lone;
use dc_base::{NoMemory, Or, Text};
use dc_outside::Shelf;
use ilspy_body::{code_can_be_flattened, flat, text};
use std::alloc::Global;

/// A status, and the text or the line that is due with it.
#[derive(Debug, Drop)]
pub(crate) struct Answer {
    pub status: Status,
    pub text: Text,
}

/// What is due for the words; it asks the shelf for the files that they name, each once and in their order.
pub(crate) fn answer_words<S: Shelf>(
    alloc: Global,
    words: &[Text],
    shelf: &mut S,
) -> Result<Answer, NoMemory>
    ensures due { IfOk result (λ answer. IsDue (shelved (S.files shelf.old) (S.faults shelf.old) (S.faults shelf.new) (S.last shelf.old) (S.last shelf.new) (S.given shelf.old) (S.given shelf.new))
        words.now answer.status answer.text) }
    ensures last { HasNotRisen (S.faults shelf.old) (S.faults shelf.new) → S.last shelf.new ≡ S.last shelf.old }
    ensures never_falls { S.faults shelf.old ≤ S.faults shelf.new }
    ensures files { S.files shelf.new ≡ S.files shelf.old }
{
    let Some(request) = asked(alloc, words)? else {
        return Ok(Answer {
            status: Status::Usage,
            text: lines::usage(alloc)?,
        });
    };
    let files = request.files(alloc)?;
    match take_all(alloc, shelf, files.as_slice()) {
        Ok(contents) => answer_request(alloc, &request, contents.as_slice()),
        Err(Or::NoMemory) => Err(NoMemory),
        Err(Or::Fault(untaken)) => answer_untaken(alloc, untaken),
    }
}

// The line of a file that wasn't given.
fn answer_untaken(alloc: Global, untaken: Untaken) -> Result<Answer, NoMemory>
    ensures { IfOk result (λ answer. IsUntakenDue untaken.entry answer.status answer.text) }
{
    match untaken {
        Untaken::TooBig(name) => Ok(Answer {
            status: Status::Refused,
            text: lines::too_big(alloc, name)?,
        }),
        Untaken::Unread(name) => Ok(Answer {
            status: Status::ReadFault,
            text: lines::cannot_read(alloc, name)?,
        }),
    }
}

// What is due for a request, by the bytes of its files.
fn answer_request(
    alloc: Global,
    request: &Request,
    contents: &[Vec<u8>],
) -> Result<Answer, NoMemory>
    requires { AreWithin (files_of request.now) (map (λ file. file.items) contents.now) }
    ensures { IfOk result (λ answer. IsRequestDue request.now (map (λ file. file.items) contents.now) answer.status answer.text) }
{
    match request {
        Request::Body { .. } => answer_body(alloc, contents[0].as_slice()),
        Request::Show { .. } => show(alloc, contents[0].as_slice()),
    }
}

fn answer_body(alloc: Global, file: &[u8]) -> Result<Answer, NoMemory>
    requires { length file.now ≤ 64 }
    ensures { IfOk result (λ answer. IsBodyDue file.now answer.status answer.text) }
{
    match lone(alloc, file) {
        Ok(code) => {
            code_can_be_flattened();
            let body = flat(alloc, code.as_slice())?;
            Ok(Answer {
                status: Status::Done,
                text: text(alloc, &body)?,
            })
        }
        Err(Or::NoMemory) => Err(NoMemory),
        Err(Or::Fault(fault)) => Ok(Answer {
            status: Status::Refused,
            text: lines::fault(alloc, fault)?,
        }),
    }
}
