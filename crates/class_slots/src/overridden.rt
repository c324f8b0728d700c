// The method that a method overrides.

ghost use Rattle.std.specs.Prelude.{◌≡◌, ℕ, IsTrue, IfSome, IfNone};
ghost use Rattle.class_rows.specs.Members.{IsOf};
ghost use Rattle.class_rows.specs.Lookups.{TakesOver, IsOverridden};
ghost use Rattle.class_slots.specs.Known.{IsKnown, IsOpenAbove};

use crate::known::Known;
use class_open::{Open, innermost_alike};
use class_rows::Virt;
use dc_base::TypeId;

/// The member that an override of the type `t` overrides: the innermost virtual method like it of those that stand open above
/// the type.
pub fn overridden(known: &Known, stacks: &Open, t: TypeId, m: u32) -> Option<u32>
    requires known { IsKnown known.now }
    requires above { IsOpenAbove known.now stacks.now t.0 }
    requires owned { IsOf known.now.members.now t.0 m }
    ensures some { IfSome result (λ n. IsOverridden known.now.types.now known.now.members.now known.now.explicit.now m n) }
    ensures none { IfNone result ((n : ℕ) → IsOverridden known.now.types.now known.now.members.now known.now.explicit.now m n → ⊥) }
{
    let row = known.members.get(m as usize)?;
    if !takes_over(row.virt) {
        return None;
    }
    innermost_alike(known.types, known.members, known.signs, stacks, m, row)
}

fn takes_over(virt: Virt) -> bool
    ensures yes { IsTrue result → TakesOver virt }
    ensures no { TakesOver virt → IsTrue result }
{
    match virt {
        Virt::Plain => false,
        Virt::Virtual => false,
        Virt::Abstract => false,
        Virt::Override => true,
        Virt::SealedOverride => true,
    }
}
