// What is computed of the rows once.

ghost use Rattle.std.specs.Prelude.{◌≡◌, ◌≢◌, ◌<◌, ◌^◌, IsTrue, IfOk, false, length};
ghost use Rattle.class_rows.specs.declared.row.Virt.{Virt};
ghost use Rattle.class_alike.specs.Named.{IsNamed};
ghost use Rattle.class_slots.specs.Known.{IsVirtual, AreVirtuals};

use class_alike::{Named, has_name};
use class_rows::{MemberRow, TypeRow, Virt};
use dc_base::{MemberId, NoMemory};
use std::alloc::Global;

/// The rows, and what is computed of them once: an order with each type behind its base, the members by their names and by
/// their signs, and which of them are virtual methods with a name.
#[derive(Drop)]
pub struct Known<'a> {
    pub types: &'a [TypeRow],
    pub members: &'a [MemberRow],
    pub explicit: &'a [(MemberId, MemberId)],
    pub order: &'a [u32],
    pub named: &'a Named,
    pub signs: &'a [usize],
    pub virtuals: &'a [bool],
}

/// For each member whether it is a virtual method with a name.
pub fn virtuals_of(
    alloc: Global,
    types: &[TypeRow],
    members: &[MemberRow],
    explicit: &[(MemberId, MemberId)],
    named: &Named,
) -> Result<Vec<bool>, NoMemory>
    requires short { length members.now < 2 ^ 32 }
    requires named { IsNamed types.now members.now explicit.now named.now }
    ensures { IfOk result (λ flags. AreVirtuals types.now members.now explicit.now (length members.now) flags.items) }
{
    let mut flags = Vec::new(alloc);
    for m in 0..members.len() {
        flags.push(is_virtual(types, members, explicit, named, m as u32))?;
    }
    Ok(flags)
}

fn is_virtual(
    types: &[TypeRow],
    members: &[MemberRow],
    explicit: &[(MemberId, MemberId)],
    named: &Named,
    m: u32,
) -> bool
    requires { IsNamed types.now members.now explicit.now named.now }
    ensures yes { IsTrue result → IsVirtual types.now members.now explicit.now m }
    ensures no { IsVirtual types.now members.now explicit.now m → IsTrue result }
{
    match members.get(m as usize) {
        Some(row) => is_virtual_row(row) && has_name(named, m),
        None => false,
    }
}

fn is_virtual_row(row: &MemberRow) -> bool
    ensures yes { IsTrue result → (row.now.virt ≢ Virt.Plain) × (row.now.is_static ≡ false) }
    ensures no { (row.now.virt ≢ Virt.Plain) × (row.now.is_static ≡ false) → IsTrue result }
{
    !row.is_static && is_not_plain(row.virt)
}

fn is_not_plain(virt: Virt) -> bool
    ensures yes { IsTrue result → virt ≢ Virt.Plain }
    ensures no { virt ≢ Virt.Plain → IsTrue result }
{
    match virt {
        Virt::Plain => false,
        Virt::Virtual => true,
        Virt::Abstract => true,
        Virt::Override => true,
        Virt::SealedOverride => true,
    }
}
