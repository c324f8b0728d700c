// The core types.

ghost use Rattle.std.specs.Prelude.{◌≡◌, ◌<◌, ◌^◌, ◌⊎◌, ℕ, length, IsTrue, IfOk, IfErr};
ghost use Rattle.dc_causes.specs.Causes.{Least};
ghost use Rattle.dc_causes.specs.Answer.{OnFault};
ghost use Rattle.class_chains.specs.Ends.{IsAboveFirst};
ghost use Rattle.class_rows.specs.declared.fault.TableFault.TheVariants.{MissingCore};
ghost use Rattle.class_rows.specs.Types.{HasType, IsAbove, IsClass};
ghost use Rattle.class_rows.specs.Names.{NamesAreUnique};
ghost use Rattle.class_rows.specs.Core.{IsCore, IsMissingCore, CoreIsThere, Meets};
ghost use Rattle.class_bases.specs.System.{HasSystem, demand_of, IsNameOf, IsDemandOf, IsException};

use crate::system::system_types;
use class_parts::derives;
use class_rows::{Kind, TableFault, TypeRow};
use dc_base::{Or, TypeId};
use indexmap::IndexMap;
use std::alloc::Global;

/// What a core type must be.
#[derive(Clone, Copy, Debug, PartialEq, Eq)]
pub enum Demand {
    Any,
    Class,
    Exception,
}

// The names of the core types by their numbers.
fn core_name(k: u8) -> &'static [u8]
    requires { k < 24 }
    ensures { IsNameOf k result.now }
{
    match k {
        0 => b"Object",
        1 => b"ValueType",
        2 => b"Enum",
        3 => b"Array",
        4 => b"String",
        5 => b"Delegate",
        6 => b"MulticastDelegate",
        7 => b"Exception",
        8 => b"Boolean",
        9 => b"Char",
        10 => b"SByte",
        11 => b"Byte",
        _ => further_name(k),
    }
}

fn further_name(k: u8) -> &'static [u8]
    requires low { 11 < k }
    requires high { k < 24 }
    ensures { IsNameOf k result.now }
{
    match k {
        12 => b"Int16",
        13 => b"UInt16",
        14 => b"Int32",
        15 => b"UInt32",
        16 => b"Int64",
        17 => b"UInt64",
        18 => b"NullReferenceException",
        19 => b"InvalidCastException",
        20 => b"IndexOutOfRangeException",
        21 => b"ArrayTypeMismatchException",
        22 => b"OverflowException",
        _ => b"DivideByZeroException",
    }
}

fn core_demand(k: u8) -> Demand
    requires { k < 24 }
    ensures { IsDemandOf k (demand_of result) }
{
    if k < 7 {
        Demand::Any
    } else if k == 7 {
        Demand::Class
    } else if k < 18 {
        Demand::Any
    } else {
        Demand::Exception
    }
}

fn is_class(types: &[TypeRow], t: TypeId) -> bool
    ensures yes { IsTrue result → HasType types.now t.0 (λ row. IsClass row.kind) }
    ensures no { HasType types.now t.0 (λ row. IsClass row.kind) → IsTrue result }
{
    match types.get(t.0 as usize) {
        Some(row) => matches!(row.kind, Kind::Class | Kind::StaticClass),
        None => false,
    }
}

fn is_exception(types: &[TypeRow], order: &[u32], systems: &IndexMap<&[u8], u32>, t: TypeId) -> bool
    requires order { IsAboveFirst (IsAbove types.now) (length types.now) order.now }
    requires unique { NamesAreUnique types.now }
    requires systems { HasSystem types.now systems.now.entries }
    ensures yes { IsTrue result → IsException types.now t.0 }
    ensures no { IsException types.now t.0 → IsTrue result }
{
    match systems.get(b"Exception".as_slice()) {
        Some(e) => derives(types, order, t, TypeId(*e)),
        None => false,
    }
}

fn meets(
    types: &[TypeRow],
    order: &[u32],
    systems: &IndexMap<&[u8], u32>,
    demand: Demand,
    t: TypeId,
) -> bool
    requires order { IsAboveFirst (IsAbove types.now) (length types.now) order.now }
    requires unique { NamesAreUnique types.now }
    requires systems { HasSystem types.now systems.now.entries }
    ensures yes { IsTrue result → Meets types.now (demand_of demand) t.0 }
    ensures no { Meets types.now (demand_of demand) t.0 → IsTrue result }
{
    match demand {
        Demand::Any => true,
        Demand::Class => is_class(types, t),
        Demand::Exception => is_class(types, t) && is_exception(types, order, systems, t),
    }
}

fn is_core_there(types: &[TypeRow], order: &[u32], systems: &IndexMap<&[u8], u32>, k: u8) -> bool
    requires order { IsAboveFirst (IsAbove types.now) (length types.now) order.now }
    requires unique { NamesAreUnique types.now }
    requires systems { HasSystem types.now systems.now.entries }
    requires within { k < 24 }
    ensures yes { IsTrue result → IsMissingCore types.now k → ⊥ }
    ensures no { ((t : ℕ) → IsCore types.now k t → ⊥) ⊎ IsTrue result }
{
    match systems.get(core_name(k)) {
        Some(t) => meets(types, order, systems, core_demand(k), TypeId(*t)),
        None => false,
    }
}

/// Whether each of the core types is there, the exceptions as classes; else the fault names the least that isn't. The names
/// of the references are unique. It takes the time of one look at each type, and of the chains above seven of them.
pub fn core_is_there(alloc: Global, types: &[TypeRow], order: &[u32]) -> Result<(), Or<TableFault>>
    requires long { length types.now < 2 ^ 32 }
    requires order { IsAboveFirst (IsAbove types.now) (length types.now) order.now }
    requires unique { NamesAreUnique types.now }
    ensures there { IfOk result (λ _. CoreIsThere types.now) }
    ensures missing { IfErr result (OnFault (Least (IsMissingCore types.now) (λ k. MissingCore k))) }
{
    let systems = system_types(alloc, types)?;
    for k in 0..24u8 {
        if !is_core_there(types, order, &systems, k) {
            return Err(Or::Fault(TableFault::MissingCore(k)));
        }
    }
    Ok(())
}
