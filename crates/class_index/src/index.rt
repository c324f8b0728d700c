// The numbers of the members in the order of their keys, and searches in it.

ghost use Rattle.std.specs.Prelude.{◌≡◌, ◌↔◌, ◌<◌, ◌≤◌, ◌^◌, ℕ, length, true, false, Contains, IfOk};
ghost use Rattle.std.specs.List.{range_with_len};
ghost use Rattle.std.specs.List.Sorted.{IsStrictlyIncreasing};
ghost use Rattle.class_rows.specs.Members.{IsOf};
ghost use Rattle.class_index.specs.Index.{IsKnownSo, AreApart};
ghost use Rattle.class_index.specs.Order.{IsIndex, key_of, key_cmp, order_cmp, owner_place, key_place, IsPlaceOf};

use crate::known_name;
use class_rows::MemberRow;
use dc_base::{NoMemory, Seq, TypeId};
use std::alloc::Global;
use std::cmp::Ordering;

/// The numbers of all members, by their owner, then by the name that C# knows them by, then by number.
#[derive(Debug, Drop)]
pub struct MemberIndex {
    pub order: Seq<u32>,
}

impl MemberIndex {
    /// It takes the time of a sort of the members by their names.
    pub fn of(alloc: Global, members: &[MemberRow]) -> Result<MemberIndex, NoMemory>
        requires { length members.now < 2 ^ 32 }
        ensures { IfOk result (λ index. IsIndex members.now index.order) }
    {
        let mut order = numbers(alloc, members.len() as u32)?;
        order.sort_by(|a, b| compare(members, *a, *b))?;
        Ok(MemberIndex {
            order: Seq::of(order),
        })
    }

    /// The members of a type that C# knows by this name, by number. The index is that of these members.
    pub fn of_name(&self, members: &[MemberRow], owner: TypeId, name: &[u8]) -> &[u32]
        requires { IsIndex members.now self.now.order }
        ensures rising { IsStrictlyIncreasing result.now }
        ensures exact { (m : ℕ) → Contains result.now m ↔ IsKnownSo members.now owner.0 name.now m }
    {
        let order = self.order.items();
        let start = before_key(order, members, owner, name);
        let end = upto_key(order, members, owner, name);
        &order[start..end]
    }

    /// The members of a type, by name, each once. The index is that of these members.
    pub fn of_owner(&self, members: &[MemberRow], owner: TypeId) -> &[u32]
        requires { IsIndex members.now self.now.order }
        ensures apart { AreApart result.now }
        ensures exact { (m : ℕ) → Contains result.now m ↔ IsOf members.now owner.0 m }
    {
        let order = self.order.items();
        let start = before_owner(order, members, owner);
        let end = upto_owner(order, members, owner);
        &order[start..end]
    }
}

fn numbers(alloc: Global, count: u32) -> Result<Vec<u32>, NoMemory>
    ensures { IfOk result (λ numbers. numbers.items ≡ range_with_len 0 count) }
{
    let mut numbers = Vec::new(alloc);
    for n in 0..count {
        numbers.push(n)?;
    }
    Ok(numbers)
}

// The owner of a member and the name that C# knows it by.
fn key(members: &[MemberRow], n: u32) -> (u32, &[u8])
    ensures owner { result.0 ≡ (key_of members.now n).0 }
    ensures name { result.1.now ≡ (key_of members.now n).1 }
{
    match members.get(n as usize) {
        Some(row) => (row.owner.0, known_name(row)),
        None => (0, &[]),
    }
}

fn compare_keys(owner: u32, name: &[u8], other_owner: u32, other_name: &[u8]) -> Ordering
    ensures { result ≡ key_cmp (owner, name.now) (other_owner, other_name.now) }
{
    owner.cmp(&other_owner).then(name.cmp(other_name))
}

fn compare(members: &[MemberRow], a: u32, b: u32) -> Ordering
    ensures { result ≡ order_cmp members.now a b }
{
    let (owner, name) = key(members, a);
    let (other_owner, other_name) = key(members, b);
    compare_keys(owner, name, other_owner, other_name).then(a.cmp(&b))
}

// How a member's key stands to the one that is sought.
fn side(members: &[MemberRow], n: u32, owner: TypeId, name: &[u8]) -> Ordering
    ensures { result ≡ key_cmp (key_of members.now n) (owner.0, name.now) }
{
    let (own, known) = key(members, n);
    compare_keys(own, known, owner.0, name)
}

fn before_key(order: &[u32], members: &[MemberRow], owner: TypeId, name: &[u8]) -> usize
    requires { IsIndex members.now order.now }
    ensures { IsPlaceOf (key_place members.now owner.0 name.now) 0 order.now result }
{
    order.partition_point(|n| side(members, *n, owner, name).is_lt())
}

fn upto_key(order: &[u32], members: &[MemberRow], owner: TypeId, name: &[u8]) -> usize
    requires { IsIndex members.now order.now }
    ensures { IsPlaceOf (key_place members.now owner.0 name.now) 1 order.now result }
{
    order.partition_point(|n| side(members, *n, owner, name).is_le())
}

fn before_owner(order: &[u32], members: &[MemberRow], owner: TypeId) -> usize
    requires { IsIndex members.now order.now }
    ensures { IsPlaceOf (owner_place members.now owner.0) 0 order.now result }
{
    order.partition_point(|n| key(members, *n).0.cmp(&owner.0).is_lt())
}

fn upto_owner(order: &[u32], members: &[MemberRow], owner: TypeId) -> usize
    requires { IsIndex members.now order.now }
    ensures { IsPlaceOf (owner_place members.now owner.0) 1 order.now result }
{
    order.partition_point(|n| key(members, *n).0.cmp(&owner.0).is_le())
}
