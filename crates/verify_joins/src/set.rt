// Sets of types, of which each stands once.

ghost use Rattle.std.specs.Prelude.{◌≡◌, IfOk, OnOk, Contains};
ghost use Rattle.std.specs.Bool.{OnTrue, OnFalse};
ghost use Rattle.verify_slots.specs.Slots.{IsSubset, IsUnited};
ghost use Rattle.verify_slots.specs.Sets.{IsPut};
ghost use Rattle.verify_narrower.specs.Narrower.{IsOnce};

use dc_base::{NoMemory, Seq, Ty};
use std::alloc::Global;

/// The types of two sets, each once where they are so in the first: those of the first, and behind them the others.
pub fn union(alloc: Global, one: &[Ty], other: &[Ty]) -> Result<Seq<Ty>, NoMemory>
    ensures united { IfOk result (λ set. IsUnited IsSubset one.now other.now set) }
    ensures once { IfOk result (λ set. IsOnce one.now → IsOnce set) }
{
    let mut set = Vec::from_slice(alloc, one)?;
    for ty in other {
        put(&mut set, *ty)?;
    }
    Ok(Seq::of(set))
}

// Puts one more type into a set, unless it is there.
fn put(set: &mut Vec<Ty>, ty: Ty) -> Result<(), NoMemory>
    ensures put { OnOk result (IsPut set.old.items ty set.new.items) }
    ensures once { OnOk result (IsOnce set.old.items → IsOnce set.new.items) }
{
    if has(set.as_slice(), ty) {
        return Ok(());
    }
    set.push(ty)?;
    Ok(())
}

fn has(set: &[Ty], ty: Ty) -> bool
    ensures yes { OnTrue result (Contains set.now ty) }
    ensures no { OnFalse result (Contains set.now ty → ⊥) }
{
    for one in set {
        if *one == ty {
            return true;
        }
    }
    false
}
