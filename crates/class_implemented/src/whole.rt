// All classes: which is the first with a method that has no implementer.

ghost use Rattle.std.specs.Prelude.{◌≡◌, ◌<◌, ◌^◌, ℕ, IfOk, IfErr, length};
ghost use Rattle.dc_causes.specs.Causes.{Least, Rounds};
ghost use Rattle.dc_causes.specs.Answer.{OnFault};
ghost use Rattle.class_keys.specs.Least.{IsLeastOf};
ghost use Rattle.class_rows.specs.declared.fault.TableFault.TheVariants.{Unimplemented};
ghost use Rattle.class_rows.specs.Bases.{BasesAreThere};
ghost use Rattle.class_rows.specs.Implemented.{IsUnimplemented, InterfacesAreImplemented};
ghost use Rattle.class_index.specs.Order.{IsIndex};
ghost use Rattle.class_parts.specs.Orders.{AreOrders};
ghost use Rattle.class_implemented.specs.Known.{IsKnown};
ghost use Rattle.class_implemented.specs.Open.{IsMissing};
ghost use Rattle.class_implemented.specs.Progress.{AreLeast};

use crate::explicit::by_type;
use crate::known::{Known, implicit_of};
use crate::walked::least_of_each;
use class_alike::Named;
use class_open::signs_of;
use class_parts::Orders;
use class_rows::{MemberRow, TableFault, TypeRow};
use class_spread::spreads_of;
use dc_base::{MemberId, NoMemory, Or, TypeId};
use std::alloc::Global;

/// Whether each class has an implementer of each method of its interfaces and of those of its bases; else the fault names
/// the least class that hasn't, and of it the least such method. `explicit` has each explicit implementation with its
/// interface's member. A class whose base is in order is asked for the interfaces that it names itself alone, and not for
/// those for which its base was asked as well. A method is looked for among the members that stand open on a walk over the
/// tree of bases, by what members alike agree in.
pub fn interfaces_are_implemented(
    alloc: Global,
    types: &[TypeRow],
    members: &[MemberRow],
    explicit: &[(MemberId, MemberId)],
    orders: &Orders,
    named: &Named,
) -> Result<(), Or<TableFault>>
    requires types { length types.now < 2 ^ 32 }
    requires members { length members.now < 2 ^ 32 }
    requires orders { AreOrders types.now orders.now }
    requires bases { BasesAreThere types.now members.now }
    requires index { IsIndex members.now named.now.index.order }
    ensures implemented { IfOk result (λ _. InterfacesAreImplemented types.now members.now explicit.now) }
    ensures unimplemented { IfErr result (OnFault (Rounds (λ c. Least (IsUnimplemented types.now members.now explicit.now c) (λ m. Unimplemented (record { 0 = c }) (record { 0 = m }))))) }
{
    let spreads = spreads_of(alloc, types, orders.bases.items())?;
    let signs = signs_of(alloc, members)?;
    let implicit = implicit_of(alloc, members)?;
    let by_type = by_type(alloc, types.len(), members, explicit)?;
    let known = Known {
        types,
        members,
        explicit,
        order: orders.bases.items(),
        index: &named.index,
        signs: signs.as_slice(),
        implicit: implicit.as_slice(),
        by_type: &by_type,
        spreads: spreads.as_slice(),
    };
    all_are_implemented(alloc, &known)
}

fn all_are_implemented(alloc: Global, known: &Known) -> Result<(), Or<TableFault>>
    requires types { length known.now.types.now < 2 ^ 32 }
    requires known { IsKnown known.now }
    ensures implemented { IfOk result (λ _. (c m : ℕ) → IsMissing known.now c m → ⊥) }
    ensures unimplemented { IfErr result (OnFault (Rounds (λ c. Least (IsMissing known.now c) (λ m. Unimplemented (record { 0 = c }) (record { 0 = m }))))) }
{
    let each = least_of_each(alloc, known)?;
    let least = each.as_slice();
    for c in 0..known.types.len() {
        if let Some(m) = missing_at(known, least, c) {
            return Err(Or::Fault(TableFault::Unimplemented(TypeId(c as u32), MemberId(m as u32))));
        }
    }
    Ok(())
}

fn missing_at(known: &Known, least: &[Option<usize>], c: usize) -> Option<usize>
    requires least { AreLeast known.now least.now }
    requires within { c < length known.now.types.now }
    ensures { IsLeastOf (IsMissing known.now c) result }
{
    least[c]
}
