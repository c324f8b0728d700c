// The parts of a class table, asked in their order.

ghost use Rattle.std.specs.Prelude.{◌≡◌, [], ◌∷◌, IfOk, IfErr, Ok};
ghost use Rattle.dc_causes.specs.Answer.{OnFault};
ghost use Rattle.dc_causes.specs.Causes.{InOrder};
ghost use Rattle.class_rows.specs.Table.{Asked, chains, names, members as members_part, bases, core, interfaces, MakeTable};
ghost use Rattle.class_rows.specs.Types.{ChainsEnd};
ghost use Rattle.class_rows.specs.Names.{NamesAreUnique};
ghost use Rattle.class_rows.specs.Unique.{MembersAreUnique};
ghost use Rattle.class_rows.specs.Bases.{BasesAreThere};
ghost use Rattle.class_rows.specs.Core.{CoreIsThere};
ghost use Rattle.class_rows.specs.Implemented.{InterfacesAreImplemented};
ghost use Rattle.class_rows.specs.Table.{IsClassTable};
ghost use Rattle.class_parts.specs.Orders.{AreOrders};
ghost use Rattle.class_alike.specs.Named.{IsNamed};
ghost use Rattle.class_table.specs.Buildable.{IsBuildable};
ghost use Rattle.class_table.specs.Kept.{IsKnown, IsKept};

use crate::known::{Kept, Known};
use class_alike::{Named, named_of};
use class_assign::supers_of;
use class_bases::{bases_are_there, core_is_there};
use class_implemented::interfaces_are_implemented;
use class_index::MemberIndex;
use class_members::members_are_unique;
use class_names::unique_names;
use class_parts::{Orders, orders_of};
use class_rows::{MemberRow, TableFault, TypeRow};
use class_slots::slots_of;
use dc_base::{MemberId, NoMemory, Or};
use std::alloc::Global;

fn ordered(
    alloc: Global,
    types: &[TypeRow],
    members: &[MemberRow],
    explicit: &[(MemberId, MemberId)],
) -> Result<Orders, Or<TableFault>>
    requires { IsBuildable types.now members.now explicit.now }
    ensures end { IfOk result (λ _. ChainsEnd types.now) }
    ensures orders { IfOk result (AreOrders types.now) }
    ensures cycle { IfErr result (OnFault (Asked types.now members.now explicit.now chains)) }
{
    match orders_of(alloc, types) {
        Ok(orders) => Ok(orders),
        Err(Or::NoMemory) => Err(Or::NoMemory),
        Err(Or::Fault(t)) => Err(Or::Fault(TableFault::Cycle(t))),
    }
}

fn named_members(
    alloc: Global,
    types: &[TypeRow],
    members: &[MemberRow],
    explicit: &[(MemberId, MemberId)],
) -> Result<Named, NoMemory>
    requires { IsBuildable types.now members.now explicit.now }
    ensures { IfOk result (IsNamed types.now members.now explicit.now) }
{
    let index = MemberIndex::of(alloc, members)?;
    named_of(alloc, types, members, explicit, index)
}

// The first three parts, with what is computed of the rows.
fn first_parts(
    alloc: Global,
    types: &[TypeRow],
    members: &[MemberRow],
    explicit: &[(MemberId, MemberId)],
) -> Result<Known, Or<TableFault>>
    requires { IsBuildable types.now members.now explicit.now }
    ensures known { IfOk result (IsKnown types.now members.now explicit.now) }
    ensures end { IfOk result (λ _. ChainsEnd types.now) }
    ensures names { IfOk result (λ _. NamesAreUnique types.now) }
    ensures members { IfOk result (λ _. MembersAreUnique types.now members.now explicit.now) }
    ensures fault { IfErr result (OnFault (MakeTable types.now members.now explicit.now)) }
{
    let orders = ordered(alloc, types, members, explicit)?;
    unique_names(alloc, types, orders.outers.items())?;
    let named = named_members(alloc, types, members, explicit)?;
    let bases = orders.bases.items();
    let nameless = named.nameless.items();
    members_are_unique(alloc, types, members, explicit, bases, nameless)?;
    Ok(Known { orders, named })
}

fn bases_in_order(
    types: &[TypeRow],
    members: &[MemberRow],
    explicit: &[(MemberId, MemberId)],
) -> Result<(), Or<TableFault>>
    requires { IsBuildable types.now members.now explicit.now }
    ensures there { IfOk result (λ _. BasesAreThere types.now members.now) }
    ensures missing { IfErr result (OnFault (Asked types.now members.now explicit.now bases)) }
{
    match bases_are_there(types, members) {
        Ok(()) => Ok(()),
        Err(fault) => Err(Or::Fault(fault)),
    }
}

// The other three.
fn last_parts(
    alloc: Global,
    types: &[TypeRow],
    members: &[MemberRow],
    explicit: &[(MemberId, MemberId)],
    known: &Known,
) -> Result<(), Or<TableFault>>
    requires rows { IsBuildable types.now members.now explicit.now }
    requires known { IsKnown types.now members.now explicit.now known.now }
    requires names { NamesAreUnique types.now }
    ensures bases { IfOk result (λ _. BasesAreThere types.now members.now) }
    ensures core { IfOk result (λ _. CoreIsThere types.now) }
    ensures interfaces { IfOk result (λ _. InterfacesAreImplemented types.now members.now explicit.now) }
    ensures fault { IfErr result (OnFault (InOrder (Asked types.now members.now explicit.now) (bases ∷ core ∷ interfaces ∷ []))) }
{
    bases_in_order(types, members, explicit)?;
    core_is_there(alloc, types, known.orders.bases.items())?;
    interfaces_are_implemented(alloc, types, members, explicit, &known.orders, &known.named)
}

// What is computed of the rows, where they make a class table; else the fault of the first part that fails.
fn known_of(
    alloc: Global,
    types: &[TypeRow],
    members: &[MemberRow],
    explicit: &[(MemberId, MemberId)],
) -> Result<Known, Or<TableFault>>
    requires { IsBuildable types.now members.now explicit.now }
    ensures known { IfOk result (IsKnown types.now members.now explicit.now) }
    ensures table { IfOk result (λ _. IsClassTable types.now members.now explicit.now) }
    ensures fault { IfErr result (OnFault (MakeTable types.now members.now explicit.now)) }
{
    let known = first_parts(alloc, types, members, explicit)?;
    last_parts(alloc, types, members, explicit, &known)?;
    Ok(known)
}

/// What a table keeps of the rows, where they make one; else the fault of the first part that fails.
pub fn kept_of(
    alloc: Global,
    types: &[TypeRow],
    members: &[MemberRow],
    explicit: &[(MemberId, MemberId)],
) -> Result<Kept, Or<TableFault>>
    requires { IsBuildable types.now members.now explicit.now }
    ensures kept { IfOk result (λ kept. IsKept types.now members.now explicit.now kept.supers kept.named kept.slots) }
    ensures fault { IfErr result (OnFault (MakeTable types.now members.now explicit.now)) }
{
    let Known { orders, named } = known_of(alloc, types, members, explicit)?;
    let slots = slots_of(alloc, types, members, explicit, &orders, &named)?;
    let supers = supers_of(alloc, types, orders)?;
    Ok(Kept {
        supers,
        named,
        slots,
    })
}
