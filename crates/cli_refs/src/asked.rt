// References to members, by the types that they name.

ghost use Rattle.std.specs.Prelude.{◌≡◌, ◌<◌, ◌+◌, ℕ, None, length, replicate, IfOk, IfSome, IfNone};
ghost use Rattle.cli_refs.specs.Asked.{AreAsked};

use crate::key::Sought;
use dc_base::{NoMemory, TypeId};
use std::alloc::Global;

/// Of each type the last of the references that name it, and of each reference the one before it that names its type.
#[derive(Debug, Drop)]
pub struct Asked {
    pub last: Vec<Option<usize>>,
    pub before: Vec<Option<usize>>,
}

/// The references that name one of so many types.
pub fn asked_of(alloc: Global, count: usize, sought: &[Sought<'_>]) -> Result<Asked, NoMemory>
    ensures { IfOk result (λ asked. AreAsked sought.now count (length sought.now) asked.last.items asked.before.items) }
{
    let mut asked = Asked {
        last: nones(alloc, count)?,
        before: Vec::new(alloc),
    };
    for q in 0..sought.len() {
        asked = with_reference(sought, count, asked, q)?;
    }
    Ok(asked)
}

fn nones(alloc: Global, count: usize) -> Result<Vec<Option<usize>>, NoMemory>
    ensures { IfOk result (λ nones. nones.items ≡ replicate count None) }
{
    Ok(vec![in alloc; None; count]?)
}

// The same with one more.
fn with_reference(
    sought: &[Sought<'_>],
    count: usize,
    asked: Asked,
    q: usize,
) -> Result<Asked, NoMemory>
    requires within { q < length sought.now }
    requires asked { AreAsked sought.now count q asked.last.items asked.before.items }
    ensures { IfOk result (λ new. AreAsked sought.now count (q + 1) new.last.items new.before.items) }
{
    let Asked { last, before } = asked;
    let mut last = last;
    let mut before = before;
    match within(sought[q].parent, count) {
        Some(t) => {
            before.push(last[t])?;
            last[t] = Some(q);
            Ok(Asked { last, before })
        }
        None => {
            before.push(None)?;
            Ok(Asked { last, before })
        }
    }
}

// The number of a type, as far as it is one of so many.
fn within(t: TypeId, count: usize) -> Option<usize>
    ensures some { IfSome result (λ n. (n < count) × (n ≡ t.0)) }
    ensures none { IfNone result (t.0 < count → ⊥) }
{
    let number = t.0 as usize;
    if number < count { Some(number) } else { None }
}
