// Chains of bases and of outer types.

ghost use Rattle.std.specs.Prelude.{◌≡◌, ℕ, ◌<◌, ◌^◌, length, map, IfOk, IfErr};
ghost use Rattle.dc_causes.specs.Answer.{IsRefused};
ghost use Rattle.class_chains.specs.Ends.{Ends, IsAboveFirst, IsOpenAt};
ghost use Rattle.class_rows.specs.Types.{IsAbove, IsOuter, ChainsEnd};
ghost use Rattle.class_parts.specs.Above.{numbers_above, numbers_round, fault_of_type, lesser_fault};
ghost use Rattle.class_parts.specs.Chains.{IsFirstCycle};
ghost use Rattle.class_parts.specs.Orders.{AreOrders};

use class_chains::above_first;
use class_rows::TypeRow;
use dc_base::{NoMemory, Or, Seq, TypeId};
use std::alloc::Global;

/// The types in two orders: each behind its base and the interfaces that it names, and each behind its outer type.
#[derive(Debug, Drop)]
pub struct Orders {
    pub bases: Seq<u32>,
    pub outers: Seq<u32>,
}

/// The two orders, or else the least type of which a chain of bases and interfaces, or of outer types, goes on for
/// ever.
pub fn orders_of(alloc: Global, types: &[TypeRow]) -> Result<Orders, Or<TypeId>>
    requires { length types.now < 2 ^ 32 }
    ensures end { IfOk result (λ _. ChainsEnd types.now) }
    ensures orders { IfOk result (AreOrders types.now) }
    ensures cycle { IfErr result (IsRefused (IsFirstCycle types.now)) }
{
    let bases = bases_first(alloc, types);
    let outers = outers_first(alloc, types);
    match bases {
        Ok(bases) => match outers {
            Ok(outers) => Ok(Orders {
                bases: Seq::of(bases),
                outers: Seq::of(outers),
            }),
            Err(outer) => Err(type_fault(outer)),
        },
        Err(base) => match outers {
            Ok(_) => Err(type_fault(base)),
            Err(outer) => Err(type_fault(lesser(base, outer))),
        },
    }
}

fn type_fault(fault: Or<u32>) -> Or<TypeId>
    ensures { result ≡ fault_of_type fault }
{
    match fault {
        Or::NoMemory => Or::NoMemory,
        Or::Fault(number) => Or::Fault(TypeId(number)),
    }
}

fn lesser(one: Or<u32>, other: Or<u32>) -> Or<u32>
    ensures { result ≡ lesser_fault one other }
{
    match one {
        Or::NoMemory => Or::NoMemory,
        Or::Fault(first) => match other {
            Or::NoMemory => Or::NoMemory,
            Or::Fault(second) => Or::Fault(first.min(second)),
        },
    }
}

fn bases_first(alloc: Global, types: &[TypeRow]) -> Result<Vec<u32>, Or<u32>>
    requires { length types.now < 2 ^ 32 }
    ensures end { IfOk result (λ _. (t : ℕ) → Ends (IsAbove types.now) t) }
    ensures order { IfOk result (λ order. IsAboveFirst (IsAbove types.now) (length types.now) order.items) }
    ensures open { IfErr result (IsOpenAt (IsAbove types.now)) }
{
    let ways = all_above(alloc, types)?;
    above_first(alloc, ways.as_slice())
}

fn outers_first(alloc: Global, types: &[TypeRow]) -> Result<Vec<u32>, Or<u32>>
    requires { length types.now < 2 ^ 32 }
    ensures end { IfOk result (λ _. (t : ℕ) → Ends (IsOuter types.now) t) }
    ensures order { IfOk result (λ order. IsAboveFirst (IsOuter types.now) (length types.now) order.items) }
    ensures open { IfErr result (IsOpenAt (IsOuter types.now)) }
{
    let ways = all_round(alloc, types)?;
    above_first(alloc, ways.as_slice())
}

fn all_above(alloc: Global, types: &[TypeRow]) -> Result<Vec<Seq<u32>>, NoMemory>
    ensures { IfOk result (λ ways. ways.items ≡ map numbers_above types.now) }
{
    let mut ways = Vec::new(alloc);
    for row in types {
        ways.push(above(alloc, row)?)?;
    }
    Ok(ways)
}

fn above(alloc: Global, row: &TypeRow) -> Result<Seq<u32>, NoMemory>
    ensures { IfOk result (λ above. above ≡ numbers_above row.now) }
{
    let mut above = Vec::new(alloc);
    if let Some(base) = row.base {
        above.push(base.0)?;
    }
    for interface in row.bases.items() {
        above.push(interface.0)?;
    }
    Ok(Seq::of(above))
}

fn all_round(alloc: Global, types: &[TypeRow]) -> Result<Vec<Seq<u32>>, NoMemory>
    ensures { IfOk result (λ ways. ways.items ≡ map numbers_round types.now) }
{
    let mut ways = Vec::new(alloc);
    for row in types {
        ways.push(round(alloc, row)?)?;
    }
    Ok(ways)
}

fn round(alloc: Global, row: &TypeRow) -> Result<Seq<u32>, NoMemory>
    ensures { IfOk result (λ round. round ≡ numbers_round row.now) }
{
    let mut round = Vec::new(alloc);
    if let Some(outer) = row.outer {
        round.push(outer.0)?;
    }
    Ok(Seq::of(round))
}
