// Whether each member can stand where it stands.

ghost use Rattle.std.specs.Prelude.{◌≡◌, ◌<◌, ◌^◌, length, IsTrue, IfOk, IfErr};
ghost use Rattle.dc_causes.specs.Causes.{Least};
ghost use Rattle.dc_causes.specs.Answer.{OnFault};
ghost use Rattle.class_chains.specs.Ends.{IsAboveFirst};
ghost use Rattle.class_keys.specs.Least.{IsLeastOf};
ghost use Rattle.class_rows.specs.declared.fault.TableFault.TheVariants.{Duplicate};
ghost use Rattle.class_rows.specs.Types.{IsAbove};
ghost use Rattle.class_rows.specs.Names.{NamesAreUnique};
ghost use Rattle.class_rows.specs.Unique.{IsDuplicate, MembersAreUnique};
ghost use Rattle.class_alike.specs.Named.{AreMarks};
ghost use Rattle.class_members.specs.Owners.{OwnersAreThere};
ghost use Rattle.class_members.specs.Nested.{HasNested};
ghost use Rattle.class_members.specs.Fieldless.{AreFieldless};
ghost use Rattle.class_members.specs.Known.{IsLoneRow, IsLone};

use crate::fieldless::{fieldless_types, is_misplaced};
use crate::nested::{NameIn, is_named_as_nested, nested_names};
use crate::odd::least_odd;
use crate::sign::least_twin;
use class_keys::lesser;
use class_rows::{MemberRow, TableFault, TypeRow};
use dc_base::{MemberId, NoMemory, Or};
use indexmap::IndexSet;
use std::alloc::Global;

// Whether a member can't stand in its type, whatever the other members are.
fn is_lone(
    types: &[TypeRow],
    nested: &IndexSet<NameIn<'_>>,
    fieldless: &[bool],
    is_nameless: bool,
    row: &MemberRow,
) -> bool
    requires nested { HasNested types.now nested.now.keys }
    requires fieldless { AreFieldless types.now fieldless.now }
    requires within { row.now.owner.0 < length types.now }
    ensures yes { IsTrue result → IsLoneRow types.now is_nameless row.now }
    ensures no { IsLoneRow types.now is_nameless row.now → IsTrue result }
{
    if is_misplaced(types, fieldless, row) {
        return true;
    }
    !is_nameless && is_named_as_nested(types, nested, row)
}

fn first_lone(
    types: &[TypeRow],
    members: &[MemberRow],
    nested: &IndexSet<NameIn<'_>>,
    fieldless: &[bool],
    nameless: &[bool],
) -> Option<usize>
    requires nested { HasNested types.now nested.now.keys }
    requires fieldless { AreFieldless types.now fieldless.now }
    requires long { length nameless.now ≡ length members.now }
    requires owners { OwnersAreThere types.now members.now }
    ensures { IsLeastOf (IsLone types.now members.now nameless.now) result }
{
    for m in 0..members.len() {
        if is_lone(types, nested, fieldless, nameless[m], &members[m]) {
            return Some(m);
        }
    }
    None
}

fn least_lone(
    alloc: Global,
    types: &[TypeRow],
    members: &[MemberRow],
    nameless: &[bool],
    order: &[u32],
) -> Result<Option<usize>, NoMemory>
    requires types { length types.now < 2 ^ 32 }
    requires order { IsAboveFirst (IsAbove types.now) (length types.now) order.now }
    requires unique { NamesAreUnique types.now }
    requires long { length nameless.now ≡ length members.now }
    requires owners { OwnersAreThere types.now members.now }
    ensures { IfOk result (IsLeastOf (IsLone types.now members.now nameless.now)) }
{
    let nested = nested_names(alloc, types)?;
    let fieldless = fieldless_types(alloc, types, order)?;
    Ok(first_lone(types, members, &nested, fieldless.as_slice(), nameless))
}

fn least_duplicate(
    alloc: Global,
    types: &[TypeRow],
    members: &[MemberRow],
    explicit: &[(MemberId, MemberId)],
    order: &[u32],
    nameless: &[bool],
) -> Result<Option<usize>, NoMemory>
    requires types { length types.now < 2 ^ 32 }
    requires members { length members.now < 2 ^ 32 }
    requires marks { AreMarks types.now members.now explicit.now nameless.now }
    requires order { IsAboveFirst (IsAbove types.now) (length types.now) order.now }
    requires unique { NamesAreUnique types.now }
    requires owners { OwnersAreThere types.now members.now }
    ensures { IfOk result (IsLeastOf (IsDuplicate types.now members.now explicit.now)) }
{
    let twin = least_twin(alloc, types, members, nameless)?;
    let odd = least_odd(alloc, types, members, nameless)?;
    let lone = least_lone(alloc, types, members, nameless, order)?;
    Ok(lesser(lesser(twin, odd), lone))
}

/// Whether each member can stand where it stands: no other member of its type agrees with it, in a type of the references
/// no other shares its name unless the two may, none has the name of a nested type there, and no instance field stands in an
/// interface or in a type that has none; else the fault names the least member that can't. The names of the references are
/// unique, and the marks are those of the members without a name. It takes the time of a few look-ups in tables of hashes for each member, and of their names and parameters.
pub fn members_are_unique(
    alloc: Global,
    types: &[TypeRow],
    members: &[MemberRow],
    explicit: &[(MemberId, MemberId)],
    order: &[u32],
    nameless: &[bool],
) -> Result<(), Or<TableFault>>
    requires types { length types.now < 2 ^ 32 }
    requires members { length members.now < 2 ^ 32 }
    requires marks { AreMarks types.now members.now explicit.now nameless.now }
    requires order { IsAboveFirst (IsAbove types.now) (length types.now) order.now }
    requires unique { NamesAreUnique types.now }
    requires owners { OwnersAreThere types.now members.now }
    ensures unique { IfOk result (λ _. MembersAreUnique types.now members.now explicit.now) }
    ensures duplicate { IfErr result (OnFault (Least (IsDuplicate types.now members.now explicit.now) (λ m. Duplicate (record { 0 = m })))) }
{
    match least_duplicate(alloc, types, members, explicit, order, nameless)? {
        None => Ok(()),
        Some(m) => Err(Or::Fault(TableFault::Duplicate(MemberId(m as u32)))),
    }
}
