// The steps of a walk over the tree of bases.

ghost use Rattle.std.specs.Prelude.{◌≡◌, ◌<◌, ◌+◌, ◌^◌, ℕ, length, IfOk};
ghost use Rattle.class_chains.specs.Ends.{IsAboveFirst};
ghost use Rattle.class_rows.specs.Types.{IsAbove};
ghost use Rattle.class_walk.specs.Ring.{IsRing, step_at, node_head};
ghost use Rattle.class_walk.specs.Walk.{IsWholeWalk};

use crate::ring::ring_of;
use class_rows::TypeRow;
use dc_base::{NoMemory, TypeId};
use std::alloc::Global;

/// The walk goes into a type, or leaves it.
#[derive(Clone, Copy, Debug, PartialEq, Eq)]
pub enum Step {
    Enter(TypeId),
    Leave(TypeId),
}

/// A walk over all types: it enters each once, from its base on, and leaves it behind all types that derive from it.
/// `order` has each type behind its base. It takes time and room in proportion to the count of types.
pub fn walk_of(alloc: Global, types: &[TypeRow], order: &[u32]) -> Result<Vec<Step>, NoMemory>
    requires few { length types.now < 2 ^ 32 }
    requires order { IsAboveFirst (IsAbove types.now) (length types.now) order.now }
    ensures { IfOk result (λ steps. IsWholeWalk types.now steps.items) }
{
    let next = ring_of(alloc, types, order)?;
    steps_of(alloc, types, order, next.as_slice())
}

// The steps round the ring, from its head.
fn steps_of(
    alloc: Global,
    types: &[TypeRow],
    order: &[u32],
    next: &[usize],
) -> Result<Vec<Step>, NoMemory>
    requires few { length types.now < 2 ^ 32 }
    requires order { IsAboveFirst (IsAbove types.now) (length types.now) order.now }
    requires ring { IsRing types.now next.now order.now (length order.now) }
    ensures { IfOk result (λ steps. IsWholeWalk types.now steps.items) }
{
    let count = types.len();
    let mut steps = Vec::new(alloc);
    let mut at = next[2 * count];
    while at < 2 * count {
        steps.push(step_of(count, at))?;
        at = next[at];
    }
    Ok(steps)
}

fn step_of(count: usize, node: usize) -> Step
    requires few { count < 2 ^ 32 }
    requires within { node < node_head count }
    ensures { result ≡ step_at count node }
{
    if node < count {
        Step::Enter(TypeId(node as u32))
    } else {
        Step::Leave(TypeId((node - count) as u32))
    }
}
