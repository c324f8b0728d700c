// Walks up the chain of bases and the chain of outer types.

ghost use Rattle.std.specs.Prelude.{◌≡◌, ◌↔◌, IsTrue, IfSome, IfNone, ℕ, length};
ghost use Rattle.class_chains.specs.Ends.{IsAboveFirst};
ghost use Rattle.class_rows.specs.Types.{IsBase, IsOuter, IsAbove, InBaseChain, IsRound};

use class_rows::TypeRow;
use dc_base::TypeId;

/// The base that a type names; none of a number past the list.
pub fn base_of(types: &[TypeRow], t: TypeId) -> Option<TypeId>
    ensures some { IfSome result (λ b. IsBase types.now t.0 b.0) }
    ensures none { IfNone result ((b : ℕ) → IsBase types.now t.0 b → ⊥) }
{
    types.get(t.0 as usize)?.base
}

/// The type round a type; none of a number past the list.
pub fn outer_of(types: &[TypeRow], t: TypeId) -> Option<TypeId>
    ensures some { IfSome result (λ o. IsOuter types.now t.0 o.0) }
    ensures none { IfNone result ((o : ℕ) → IsOuter types.now t.0 o → ⊥) }
{
    types.get(t.0 as usize)?.outer
}

/// Whether `t` is `above` or has it in its base chain. `order` has each type behind those above it.
pub fn derives(types: &[TypeRow], order: &[u32], t: TypeId, above: TypeId) -> bool
    requires { IsAboveFirst (IsAbove types.now) (length types.now) order.now }
    ensures yes { IsTrue result → InBaseChain types.now t.0 above.0 }
    ensures no { InBaseChain types.now t.0 above.0 → IsTrue result }
{
    let mut at = t;
    while at != above {
        let Some(base) = base_of(types, at) else {
            return false;
        };
        at = base;
    }
    true
}

/// Whether `t` is `round` or is nested in it, over however many others. `order` has each type behind its outer type.
pub fn is_inside(types: &[TypeRow], order: &[u32], t: TypeId, round: TypeId) -> bool
    requires { IsAboveFirst (IsOuter types.now) (length types.now) order.now }
    ensures yes { IsTrue result → IsRound types.now t.0 round.0 }
    ensures no { IsRound types.now t.0 round.0 → IsTrue result }
{
    let mut at = t;
    while at != round {
        let Some(outer) = outer_of(types, at) else {
            return false;
        };
        at = outer;
    }
    true
}
