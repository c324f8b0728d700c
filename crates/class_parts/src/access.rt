// From where a type or a member may be named.

ghost use Rattle.std.specs.Prelude.{◌≡◌, ◌⊎◌, ◌<◌, IsTrue, ℕ, length, true};
ghost use Rattle.class_rows.specs.Types.{HasType, InBaseChain};
ghost use Rattle.class_rows.specs.Lookups.{AreOwn, IsThrough, IsHeir, MayName, IsOpen, IsAccessible};
ghost use Rattle.class_parts.specs.Orders.{AreOrders};

use crate::{Orders, derives, is_inside, outer_of};
use class_rows::{Access, MemberRow, TypeRow};
use dc_base::{MemberId, TypeId};

fn is_own(types: &[TypeRow], t: TypeId) -> bool
    ensures yes { IsTrue result → HasType types.now t.0 (λ row. row.own ≡ true) }
    ensures no { HasType types.now t.0 (λ row. row.own ≡ true) → IsTrue result }
{
    match types.get(t.0 as usize) {
        Some(row) => row.own,
        None => false,
    }
}

fn are_own(types: &[TypeRow], from: TypeId, owner: TypeId) -> bool
    ensures yes { IsTrue result → AreOwn types.now from.0 owner.0 }
    ensures no { AreOwn types.now from.0 owner.0 → IsTrue result }
{
    is_own(types, from) && is_own(types, owner)
}

fn is_through(types: &[TypeRow], orders: &Orders, through: Option<TypeId>, heir: TypeId) -> bool
    requires { AreOrders types.now orders.now }
    ensures yes { IsTrue result → IsThrough types.now through heir.0 }
    ensures no { IsThrough types.now through heir.0 → IsTrue result }
{
    match through {
        Some(t) => derives(types, orders.bases.items(), t, heir),
        None => true,
    }
}

// Whether this very type is the owner or derives from it, and what is reached goes through it.
fn fits(
    types: &[TypeRow],
    orders: &Orders,
    heir: TypeId,
    owner: TypeId,
    through: Option<TypeId>,
) -> bool
    requires { AreOrders types.now orders.now }
    ensures yes { IsTrue result → InBaseChain types.now heir.0 owner.0 × IsThrough types.now through heir.0 }
    ensures no { InBaseChain types.now heir.0 owner.0 × IsThrough types.now through heir.0 → IsTrue result }
{
    derives(types, orders.bases.items(), heir, owner) && is_through(types, orders, through, heir)
}

fn is_heir(
    types: &[TypeRow],
    orders: &Orders,
    from: TypeId,
    owner: TypeId,
    through: Option<TypeId>,
) -> bool
    requires { AreOrders types.now orders.now }
    ensures yes { IsTrue result → IsHeir types.now from.0 owner.0 through }
    ensures no { IsHeir types.now from.0 owner.0 through → IsTrue result }
{
    let mut at = from;
    while !fits(types, orders, at, owner, through) {
        let Some(outer) = outer_of(types, at) else {
            return false;
        };
        at = outer;
    }
    true
}

fn may_name(
    types: &[TypeRow],
    orders: &Orders,
    access: Access,
    owner: TypeId,
    from: TypeId,
    through: Option<TypeId>,
) -> bool
    requires { AreOrders types.now orders.now }
    ensures yes { IsTrue result → MayName types.now access owner.0 from.0 through }
    ensures no { MayName types.now access owner.0 from.0 through → IsTrue result }
{
    match access {
        Access::Public => true,
        Access::Private => is_inside(types, orders.outers.items(), from, owner),
        Access::Internal => are_own(types, from, owner),
        Access::Protected => is_heir(types, orders, from, owner, through),
        Access::ProtectedInternal => {
            is_heir(types, orders, from, owner, through) || are_own(types, from, owner)
        }
        Access::PrivateProtected => {
            is_heir(types, orders, from, owner, through) && are_own(types, from, owner)
        }
    }
}

fn is_open(types: &[TypeRow], orders: &Orders, from: TypeId, t: TypeId) -> bool
    requires { AreOrders types.now orders.now }
    ensures yes { IsTrue result → IsOpen types.now from.0 t.0 }
    ensures no { IsOpen types.now from.0 t.0 → IsTrue result }
{
    let mut at = t;
    while let Some(outer) = outer_of(types, at) {
        if !is_named_in(types, orders, from, at, outer) {
            return false;
        }
        at = outer;
    }
    is_open_at_top(types, at)
}

// Whether a nested type may be named as a member of the type round it.
fn is_named_in(types: &[TypeRow], orders: &Orders, from: TypeId, t: TypeId, outer: TypeId) -> bool
    requires { AreOrders types.now orders.now }
    ensures yes { IsTrue result → HasType types.now t.0 (λ row. MayName types.now row.access outer.0 from.0 None) }
    ensures no { HasType types.now t.0 (λ row. MayName types.now row.access outer.0 from.0 None) → IsTrue result }
{
    match types.get(t.0 as usize) {
        Some(row) => may_name(types, orders, row.access, outer, from, None),
        None => false,
    }
}

// Whether a type that is nested in none is public or own.
fn is_open_at_top(types: &[TypeRow], t: TypeId) -> bool
    ensures yes { IsTrue result → HasType types.now t.0 (λ row. (row.outer ≡ None) × ((row.access ≡ Access.Public) ⊎ (row.own ≡ true))) }
    ensures no { HasType types.now t.0 (λ row. (row.outer ≡ None) × ((row.access ≡ Access.Public) ⊎ (row.own ≡ true))) → IsTrue result }
{
    match types.get(t.0 as usize) {
        Some(row) => row.outer.is_none() && (matches!(row.access, Access::Public) || row.own),
        None => false,
    }
}

/// Whether a member may be named from the type `from`; what is reached by an instance goes `through` its type. It takes the
/// time of the chains of bases above the types round `from`.
pub fn accessible(
    types: &[TypeRow],
    members: &[MemberRow],
    orders: &Orders,
    from: TypeId,
    m: MemberId,
    through: Option<TypeId>,
) -> bool
    requires orders { AreOrders types.now orders.now }
    requires within { m.0 < length members.now }
    ensures yes { IsTrue result → IsAccessible types.now members.now from.0 m.0 through }
    ensures no { IsAccessible types.now members.now from.0 m.0 through → IsTrue result }
{
    let member = &members[m.0 as usize];
    may_name(types, orders, member.access, member.owner, from, through)
        && is_open(types, orders, from, member.owner)
}
