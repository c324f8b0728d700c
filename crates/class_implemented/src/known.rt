// What is computed of the rows once.

ghost use Rattle.std.specs.Prelude.{◌≡◌, ◌<◌, ◌^◌, IsTrue, IfOk, false, length};
ghost use Rattle.class_rows.specs.declared.row.Access.TheVariants.{Public};
ghost use Rattle.class_implemented.specs.Known.{IsImplicit, AreImplicit};

use crate::explicit::ByType;
use class_index::MemberIndex;
use class_rows::{Access, MemberRow, TypeRow};
use class_spread::Spread;
use dc_base::{MemberId, NoMemory};
use std::alloc::Global;

/// The rows, and what is computed of them once: an order with each type behind those above it, the members by their names
/// and by their signs, which of them are public instance members, the explicit implementations by their types, and the
/// interfaces of each type.
#[derive(Drop)]
pub struct Known<'a> {
    pub types: &'a [TypeRow],
    pub members: &'a [MemberRow],
    pub explicit: &'a [(MemberId, MemberId)],
    pub order: &'a [u32],
    pub index: &'a MemberIndex,
    pub signs: &'a [usize],
    pub implicit: &'a [bool],
    pub by_type: &'a ByType,
    pub spreads: &'a [Option<Spread>],
}

/// For each member whether it is a public instance member.
pub fn implicit_of(alloc: Global, members: &[MemberRow]) -> Result<Vec<bool>, NoMemory>
    ensures { IfOk result (λ flags. AreImplicit members.now (length members.now) flags.items) }
{
    let mut flags = Vec::new(alloc);
    for m in 0..members.len() {
        flags.push(is_implicit_at(members, m))?;
    }
    Ok(flags)
}

fn is_implicit_at(members: &[MemberRow], m: usize) -> bool
    ensures yes { IsTrue result → IsImplicit members.now m }
    ensures no { IsImplicit members.now m → IsTrue result }
{
    match members.get(m) {
        Some(row) => is_implicit(row),
        None => false,
    }
}

fn is_implicit(row: &MemberRow) -> bool
    ensures yes { IsTrue result → (row.now.access ≡ Public) × (row.now.is_static ≡ false) }
    ensures no { (row.now.access ≡ Public) × (row.now.is_static ≡ false) → IsTrue result }
{
    matches!(row.access, Access::Public) && !row.is_static
}
