// One step of the walk over the tree of bases, which tells the slots of the members of the type that it enters.

ghost use Rattle.std.specs.Prelude.{◌≡◌, ◌↔◌, ◌∷◌, ◌<◌, ◌^◌, ℕ, List, IfOk, length, Contains};
ghost use Rattle.class_rows.specs.Members.{IsOf};
ghost use Rattle.class_rows.specs.Lookups.{IsSlot};
ghost use Rattle.class_walk.specs.declared.walk.Step.{Step as WalkStep};
ghost use Rattle.class_walk.specs.Walk.{IsBelow, IsWalk};
ghost use Rattle.class_open.specs.Stacks.{AreStacked};
ghost use Rattle.class_slots.specs.Known.{IsKnown, IsOpenAbove};
ghost use Rattle.class_slots.specs.Told.{AreSlotsAbove, AreSlotsWith, IsSlotWritten};
ghost use Rattle.class_slots.specs.At.{IsAt, IsStepTold};

use crate::known::Known;
use crate::overridden::overridden;
use class_open::{Open, closed, opened};
use class_walk::Step;
use dc_base::{NoMemory, TypeId};

/// The virtual methods that stand open, and the slots of the members of all types that were entered.
#[derive(Drop)]
pub struct Progress {
    pub stacks: Open,
    pub slots: Vec<u32>,
}

pub fn stepped(known: &Known, progress: Progress, step: Step) -> Result<Progress, NoMemory>
    requires known { IsKnown known.now }
    requires at { (path : List ℕ) × (rest : List WalkStep) × IsAt known.now path progress × IsWalk known.now.types.now path (step ∷ rest) }
    ensures at { IfOk result (λ new. (path : List ℕ) (rest : List WalkStep) → IsAt known.now path progress → IsWalk known.now.types.now path (step ∷ rest) → (onward : List ℕ) × IsAt known.now onward new × IsWalk known.now.types.now onward rest) }
    ensures told { IfOk result (λ new. IsStepTold known.now step progress.slots.items new.slots.items) }
{
    match step {
        Step::Enter(t) => entered(known, progress, t),
        Step::Leave(t) => left(known, progress, t),
    }
}

fn entered(known: &Known, progress: Progress, t: TypeId) -> Result<Progress, NoMemory>
    requires known { IsKnown known.now }
    requires at { (path : List ℕ) × IsAt known.now path progress × IsBelow known.now.types.now path t.0 }
    ensures at { IfOk result (λ new. (path : List ℕ) → IsAt known.now path progress → IsBelow known.now.types.now path t.0 → IsAt known.now (t.0 ∷ path) new) }
    ensures told { IfOk result (λ new. AreSlotsWith known.now.types.now known.now.members.now known.now.explicit.now progress.slots.items new.slots.items t.0) }
{
    let Progress { stacks, slots } = progress;
    let own = known.named.index.of_owner(known.members, t);
    let slots = with_slots_of(known, &stacks, slots, t, own);
    let stacks = opened(stacks, known.signs, known.virtuals, own)?;
    Ok(Progress { stacks, slots })
}

fn left(known: &Known, progress: Progress, t: TypeId) -> Result<Progress, NoMemory>
    requires known { IsKnown known.now }
    requires stacked { AreStacked known.now.signs.now progress.stacks.tops.items progress.stacks.below.items progress.stacks.trail }
    ensures at { IfOk result (λ new. (path : List ℕ) → IsAt known.now (t.0 ∷ path) progress → IsAt known.now path new) }
    ensures told { IfOk result (λ new. new.slots.items ≡ progress.slots.items) }
{
    let Progress { stacks, slots } = progress;
    let stacks = closed(stacks, known.members, known.signs, t)?;
    Ok(Progress { stacks, slots })
}

// The slots with those of the members of a type, where those of the types above it stand already.
fn with_slots_of(known: &Known, stacks: &Open, slots: Vec<u32>, t: TypeId, own: &[u32]) -> Vec<u32>
    requires known { IsKnown known.now }
    requires stacks { IsOpenAbove known.now stacks.now t.0 }
    requires above { AreSlotsAbove known.now.types.now known.now.members.now known.now.explicit.now slots.items t.0 }
    requires own { (m : ℕ) → Contains own.now m ↔ IsOf known.now.members.now t.0 m }
    ensures { AreSlotsWith known.now.types.now known.now.members.now known.now.explicit.now slots.items result.items t.0 }
{
    let mut slots = slots;
    for m in own {
        slots = with_slot(known, stacks, slots, t, *m);
    }
    slots
}

// The slots with that of a member of the type.
fn with_slot(known: &Known, stacks: &Open, slots: Vec<u32>, t: TypeId, m: u32) -> Vec<u32>
    requires known { IsKnown known.now }
    requires stacks { IsOpenAbove known.now stacks.now t.0 }
    requires above { AreSlotsAbove known.now.types.now known.now.members.now known.now.explicit.now slots.items t.0 }
    requires owned { IsOf known.now.members.now t.0 m }
    ensures { IsSlotWritten known.now.types.now known.now.members.now known.now.explicit.now slots.items result.items m }
{
    let mut slots = slots;
    let slot = slot_of(known, stacks, slots.as_slice(), t, m);
    slots[m as usize] = slot;
    slots
}

fn slot_of(known: &Known, stacks: &Open, slots: &[u32], t: TypeId, m: u32) -> u32
    requires known { IsKnown known.now }
    requires stacks { IsOpenAbove known.now stacks.now t.0 }
    requires above { AreSlotsAbove known.now.types.now known.now.members.now known.now.explicit.now slots.now t.0 }
    requires owned { IsOf known.now.members.now t.0 m }
    ensures { IsSlot known.now.types.now known.now.members.now known.now.explicit.now m result }
{
    match overridden(known, stacks, t, m) {
        Some(n) => slots[n as usize],
        None => m,
    }
}
