// Explicit implementations, by the types that have them.

ghost use Rattle.std.specs.Prelude.{◌≡◌, ◌<◌, ◌+◌, ℕ, None, length, replicate, IfOk, IfSome, IfNone};
ghost use Rattle.class_rows.specs.Members.{IsOf};
ghost use Rattle.class_implemented.specs.Explicit.{AreByType};

use class_rows::MemberRow;
use dc_base::{MemberId, NoMemory};
use std::alloc::Global;

/// Of each type the last of its explicit implementations, and of each of these the one before it of its type.
#[derive(Debug, Drop)]
pub struct ByType {
    pub last: Vec<Option<usize>>,
    pub before: Vec<Option<usize>>,
}

/// The explicit implementations of so many types.
pub fn by_type(
    alloc: Global,
    count: usize,
    members: &[MemberRow],
    explicit: &[(MemberId, MemberId)],
) -> Result<ByType, NoMemory>
    ensures { IfOk result (λ by. AreByType members.now explicit.now count (length explicit.now) by.last.items by.before.items) }
{
    let mut by = ByType {
        last: nones(alloc, count)?,
        before: Vec::new(alloc),
    };
    for k in 0..explicit.len() {
        by = with_pair(members, explicit, count, by, k)?;
    }
    Ok(by)
}

pub fn nones(alloc: Global, count: usize) -> Result<Vec<Option<usize>>, NoMemory>
    ensures { IfOk result (λ nones. nones.items ≡ replicate count None) }
{
    Ok(vec![in alloc; None; count]?)
}

// The same with one more.
fn with_pair(
    members: &[MemberRow],
    explicit: &[(MemberId, MemberId)],
    count: usize,
    by: ByType,
    k: usize,
) -> Result<ByType, NoMemory>
    requires within { k < length explicit.now }
    requires by { AreByType members.now explicit.now count k by.last.items by.before.items }
    ensures { IfOk result (λ new. AreByType members.now explicit.now count (k + 1) new.last.items new.before.items) }
{
    let ByType { last, before } = by;
    let mut last = last;
    let mut before = before;
    match owner_within(members, explicit[k].0, count) {
        Some(t) => {
            before.push(last[t])?;
            last[t] = Some(k);
            Ok(ByType { last, before })
        }
        None => {
            before.push(None)?;
            Ok(ByType { last, before })
        }
    }
}

// The type of a member, as far as it is one of so many.
fn owner_within(members: &[MemberRow], m: MemberId, count: usize) -> Option<usize>
    ensures some { IfSome result (λ t. (t < count) × IsOf members.now t m.0) }
    ensures none { IfNone result ((t : ℕ) → t < count → IsOf members.now t m.0 → ⊥) }
{
    let row = members.get(m.0 as usize)?;
    let owner = row.owner.0 as usize;
    if owner < count { Some(owner) } else { None }
}
