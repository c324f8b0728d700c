// What stands above a type, and the two types of System that all arrays and interfaces go to.

ghost use Rattle.std.specs.Prelude.{◌≡◌, ◌⊎◌, ◌<◌, ◌^◌, ℕ, IsTrue, IfOk, IfSome, IfNone, codes, length};
ghost use Rattle.class_rows.specs.Types.{IsNamed, IsSuper, NamesInterface};
ghost use Rattle.class_rows.specs.Names.{NamesAreUnique};
ghost use Rattle.class_rows.specs.Core.{CoreIsThere, IsSystem};
ghost use Rattle.class_parts.specs.Orders.{AreOrders};
ghost use Rattle.class_assign.specs.Supers.{AreSupers, IsDeclaredInSystem};

use class_parts::{Orders, base_of};
use class_rows::TypeRow;
use class_spread::{Spread, is_among, spreads_of};
use dc_base::{NoMemory, Seq, TypeId};
use std::alloc::Global;

/// What is computed once of the types of a table: their orders, the interfaces of each, and System.Object and
/// System.Array.
#[derive(Debug, Drop)]
pub struct Supers {
    pub orders: Orders,
    pub spreads: Seq<Option<Spread>>,
    pub object: TypeId,
    pub array: TypeId,
}

/// It takes the time of the interfaces of the types; of a type that names just one interface that of one item.
pub fn supers_of(alloc: Global, types: &[TypeRow], orders: Orders) -> Result<Supers, NoMemory>
    requires short { length types.now < 2 ^ 32 }
    requires orders { AreOrders types.now orders }
    requires there { (t i : ℕ) → IsNamed types.now t i → i < length types.now }
    requires names { NamesAreUnique types.now }
    requires core { CoreIsThere types.now }
    ensures { IfOk result (AreSupers types.now) }
{
    let spreads = spreads_of(alloc, types, orders.bases.items())?;
    let object = object_of(types);
    let array = array_of(types);
    Ok(Supers {
        orders,
        spreads: Seq::of(spreads),
        object,
        array,
    })
}

fn object_of(types: &[TypeRow]) -> TypeId
    requires short { length types.now < 2 ^ 32 }
    requires core { CoreIsThere types.now }
    ensures { IsSystem types.now (codes "Object") result.0 }
{
    match system_type(types, "Object") {
        Some(t) => t,
        None => unreachable!(),
    }
}

fn array_of(types: &[TypeRow]) -> TypeId
    requires short { length types.now < 2 ^ 32 }
    requires core { CoreIsThere types.now }
    ensures { IsSystem types.now (codes "Array") result.0 }
{
    match system_type(types, "Array") {
        Some(t) => t,
        None => unreachable!(),
    }
}

// The first type of the references that is declared in System under a name.
fn system_type(types: &[TypeRow], name: &str) -> Option<TypeId>
    requires { length types.now < 2 ^ 32 }
    ensures some { IfSome result (λ t. IsSystem types.now name.now t.0) }
    ensures none { IfNone result ((t : ℕ) → IsSystem types.now name.now t → ⊥) }
{
    for (t, row) in types.iter().enumerate() {
        if is_system(row, name) {
            return Some(TypeId(t as u32));
        }
    }
    None
}

fn is_system(row: &TypeRow, name: &str) -> bool
    ensures yes { IsTrue result → IsDeclaredInSystem name.now row.now }
    ensures no { IsDeclaredInSystem name.now row.now → IsTrue result }
{
    !row.own && row.outer.is_none() && row.space.as_str() == "System" && row.name.as_str() == name
}

/// Whether a type is `above`, has it in its base chain, or among the interfaces of that chain. It takes the time of the
/// chain and of the interfaces of each type in it.
pub fn is_super(types: &[TypeRow], supers: &Supers, t: TypeId, above: TypeId) -> bool
    requires { AreSupers types.now supers.now }
    ensures yes { IsTrue result → IsSuper types.now t.0 above.0 }
    ensures no { IsSuper types.now t.0 above.0 → IsTrue result }
{
    let mut at = t;
    while !is_near(types, supers, at, above) {
        let Some(base) = base_of(types, at) else {
            return false;
        };
        at = base;
    }
    true
}

// Whether a type is this one, or has it among the interfaces that it names itself.
fn is_near(types: &[TypeRow], supers: &Supers, t: TypeId, above: TypeId) -> bool
    requires { AreSupers types.now supers.now }
    ensures yes { IsTrue result → (t.0 ≡ above.0) ⊎ NamesInterface types.now t.0 above.0 }
    ensures no { (t.0 ≡ above.0) ⊎ NamesInterface types.now t.0 above.0 → IsTrue result }
{
    t == above
        || is_among(
            types,
            supers.orders.bases.items(),
            supers.spreads.items(),
            t,
            above,
        )
}
