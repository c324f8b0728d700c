// Sets of types.

ghost use Rattle.std.specs.Prelude.{◌≡◌, IfOk, OnOk};
ghost use Rattle.verify_slots.specs.Slots.{IsSubset, IsUnited};
ghost use Rattle.verify_slots.specs.Sets.{IsSet, IsPut};

use dc_base::{NoMemory, Seq, Ty};
use std::alloc::Global;

/// The types of two sets.
pub fn union(alloc: Global, one: &[Ty], other: &[Ty]) -> Result<Seq<Ty>, NoMemory>
    ensures united { IfOk result (λ set. IsUnited IsSubset one.now other.now set) }
    ensures ordered { IfOk result (λ set. IsSet ⟦<Ty as Ord>⟧.cmp one.now → IsSet ⟦<Ty as Ord>⟧.cmp set) }
{
    let mut set = Vec::from_slice(alloc, one)?;
    for ty in other {
        put(&mut set, *ty)?;
    }
    Ok(Seq::of(set))
}

// Puts one more type into a set, in its place.
fn put(set: &mut Vec<Ty>, ty: Ty) -> Result<(), NoMemory>
    ensures put { OnOk result (IsPut set.old.items ty set.new.items) }
    ensures ordered { OnOk result (IsSet ⟦<Ty as Ord>⟧.cmp set.old.items → IsSet ⟦<Ty as Ord>⟧.cmp set.new.items) }
{
    if let Err(place) = set.binary_search(&ty) {
        set.insert(place, ty)?;
    }
    Ok(())
}
