// The steps of a walk as a ring of nodes, each with the next one. Of n types, node t stands for the entry of the type t,
// node n + t for its leave, and node 2 n is the head. A node that isn't in the ring has 2 n + 1 as the next.

ghost use Rattle.std.specs.Prelude.{◌≡◌, ◌<◌, ◌≤◌, ◌+◌, ◌*◌, ◌^◌, ℕ, length, slice_get, Some, IfOk};
ghost use Rattle.class_chains.specs.Ends.{IsAboveFirst};
ghost use Rattle.class_rows.specs.Types.{IsAbove};
ghost use Rattle.class_walk.specs.Ring.{IsRing, IsRingPut, IsPlaceFor, node_none, node_head};

use class_parts::base_of;
use class_rows::TypeRow;
use dc_base::{NoMemory, TypeId};
use std::alloc::Global;

/// The ring of the walk over all types. `order` has each type behind its base.
pub fn ring_of(alloc: Global, types: &[TypeRow], order: &[u32]) -> Result<Vec<usize>, NoMemory>
    requires few { length types.now < 2 ^ 32 }
    requires order { IsAboveFirst (IsAbove types.now) (length types.now) order.now }
    ensures { IfOk result (λ next. IsRing types.now next.items order.now (length order.now)) }
{
    let count = types.len();
    let mut next = empty_ring(alloc, count)?;
    for t in order {
        next = with_type(next, count, below(types, *t), *t);
    }
    Ok(next)
}

fn empty_ring(alloc: Global, count: usize) -> Result<Vec<usize>, NoMemory>
    requires { count < 2 ^ 32 }
    ensures long { IfOk result (λ next. length next.items ≡ node_none count) }
    ensures head { IfOk result (λ next. slice_get next.items (node_head count) ≡ Some (node_head count)) }
    ensures none { IfOk result (λ next. (k : ℕ) → k < node_head count → slice_get next.items k ≡ Some (node_none count)) }
{
    let mut next = vec![in alloc; 2 * count + 1; 2 * count + 1]?;
    next[2 * count] = 2 * count;
    Ok(next)
}

// The ring with a type's entry and leave behind a node, where they aren't in it yet.
fn with_type(next: Vec<usize>, count: usize, at: usize, t: u32) -> Vec<usize>
    requires few { count < 2 ^ 32 }
    requires long { length next.items ≡ node_none count }
    requires place { at < node_none count }
    requires within { t < count }
    ensures { IsRingPut count next.items result.items at t }
{
    let enter = t as usize;
    let mut next = next;
    if next[enter] == 2 * count + 1 {
        let behind = next[at];
        next[count + enter] = behind;
        next[enter] = count + enter;
        next[at] = enter;
    }
    next
}

// The node behind which a type's entry stands: the entry of its base, or the head where the base isn't there.
fn below(types: &[TypeRow], t: u32) -> usize
    requires few { length types.now < 2 ^ 32 }
    ensures { IsPlaceFor types.now t result }
{
    match base_of(types, TypeId(t)) {
        Some(base) => if (base.0 as usize) < types.len() {
            base.0 as usize
        } else {
            2 * types.len()
        },
        None => 2 * types.len(),
    }
}
