// The interfaces of each type, a type behind those above it.

ghost use Rattle.std.specs.Prelude.{◌≡◌, ◌<◌, ℕ, [], ◌++◌, List, length, map, Some, None, IfSome, IfNone, IfOk, OnOk, nat_eq, slice_get};
ghost use Rattle.dc_base.specs.declared.names.TypeId.{TypeId};
ghost use Rattle.class_chains.specs.Ends.{IsAboveFirst};
ghost use Rattle.class_rows.specs.Types.{IsAbove, IsNamed};
ghost use Rattle.class_spread.specs.Spreads.{AreSpreads, IsTold, LinksGoUp, IsSpreadOut};
ghost use Rattle.class_spread.specs.Filled.{IsSoFar, IsFilled, IsFurther, IsSpreadFor, AllTold, added};

use class_rows::TypeRow;
use dc_base::{NoMemory, Seq, TypeId};
use indexmap::IndexSet;
use std::alloc::Global;

/// The interfaces of a type: these, and then those of another type.
#[derive(Debug, Drop)]
pub struct Spread {
    pub own: Seq<u32>,
    pub onward: Option<u32>,
}

/// The interfaces of each type, by its number; `order` has each type behind those above it. A type that names just one
/// interface takes the time and the memory of one item, any other those of the interfaces above it.
pub fn spreads_of(
    alloc: Global,
    types: &[TypeRow],
    order: &[u32],
) -> Result<Vec<Option<Spread>>, NoMemory>
    requires order { IsAboveFirst (IsAbove types.now) (length types.now) order.now }
    requires there { (t i : ℕ) → IsNamed types.now t i → i < length types.now }
    ensures { IfOk result (λ table. AreSpreads types.now table.items) }
{
    let mut table = empty(alloc, types)?;
    for t in order {
        fill(alloc, types, order, table.as_mut_slice(), *t)?;
    }
    Ok(table)
}

fn empty(alloc: Global, types: &[TypeRow]) -> Result<Vec<Option<Spread>>, NoMemory>
    ensures { IfOk result (λ table. IsSoFar types.now table.items) }
{
    let mut table = Vec::new(alloc);
    for _ in types {
        table.push(None)?;
    }
    Ok(table)
}

// Tells the interfaces of a type, unless they are told already.
fn fill(
    alloc: Global,
    types: &[TypeRow],
    order: &[u32],
    table: &mut [Option<Spread>],
    t: u32,
) -> Result<(), NoMemory>
    requires order { IsAboveFirst (IsAbove types.now) (length types.now) order.now }
    requires so_far { IsSoFar types.now table.old }
    requires within { t < length types.now }
    requires behind { (i : ℕ) → IsNamed types.now t i → IsFilled table.old i }
    ensures { OnOk result (IsFurther types.now table.old table.new t) }
{
    if table[t as usize].is_none() {
        let spread = spread_of(alloc, types, order, table, t)?;
        table[t as usize] = Some(spread);
    }
    Ok(())
}

fn spread_of(
    alloc: Global,
    types: &[TypeRow],
    order: &[u32],
    table: &[Option<Spread>],
    t: u32,
) -> Result<Spread, NoMemory>
    requires order { IsAboveFirst (IsAbove types.now) (length types.now) order.now }
    requires so_far { IsSoFar types.now table.now }
    requires within { t < length types.now }
    requires behind { (i : ℕ) → IsNamed types.now t i → IsFilled table.now i }
    ensures { IfOk result (IsSpreadFor types.now table.now t) }
{
    match types[t as usize].bases.items() {
        [only] => {
            let own = Vec::from_slice(alloc, &[only.0])?;
            Ok(Spread {
                own: Seq::of(own),
                onward: Some(only.0),
            })
        }
        named => {
            let own = gathered(alloc, types, order, table, named)?;
            Ok(Spread {
                own: Seq::of(own),
                onward: None,
            })
        }
    }
}

// Each of the interfaces with those that it names, each once.
fn gathered(
    alloc: Global,
    types: &[TypeRow],
    order: &[u32],
    table: &[Option<Spread>],
    named: &[TypeId],
) -> Result<Vec<u32>, NoMemory>
    requires order { IsAboveFirst (IsAbove types.now) (length types.now) order.now }
    requires so_far { IsSoFar types.now table.now }
    requires behind { AllTold table.now named.now }
    ensures { IfOk result (λ own. IsSpreadOut types.now (map (λ (i : TypeId). i.0) named.now) own.items) }
{
    let mut seen = IndexSet::new(alloc);
    for interface in named {
        seen.insert(interface.0)?;
        follow(types, order, table, interface.0, &mut seen)?;
    }
    Ok(Vec::from_slice(alloc, seen.as_slice())?)
}

// Adds the interfaces of a type to those that are seen.
fn follow(
    types: &[TypeRow],
    order: &[u32],
    table: &[Option<Spread>],
    t: u32,
    seen: &mut IndexSet<u32>,
) -> Result<(), NoMemory>
    requires order { IsAboveFirst (IsAbove types.now) (length types.now) order.now }
    requires so_far { IsSoFar types.now table.now }
    ensures { OnOk result ((list : List ℕ) → IsTold table.now t list → seen.new.keys ≡ added seen.old.keys list) }
{
    let mut at = t;
    while let Some(spread) = spread_at(table, at) {
        add_all(spread.own.items(), seen)?;
        let Some(above) = spread.onward else {
            return Ok(());
        };
        at = above;
    }
    Ok(())
}

/// What a table tells of a type by itself.
pub fn spread_at(table: &[Option<Spread>], t: u32) -> Option<&Spread>
    ensures some { IfSome result (λ s. slice_get table.now t ≡ Some (Some s.now)) }
    ensures none { IfNone result ((s : Spread) → slice_get table.now t ≡ Some (Some s) → ⊥) }
{
    table.get(t as usize)?.as_ref()
}

fn add_all(own: &[u32], seen: &mut IndexSet<u32>) -> Result<(), NoMemory>
    ensures { OnOk result (seen.new.keys ≡ added seen.old.keys own.now) }
{
    for number in own {
        seen.insert(*number)?;
    }
    Ok(())
}
