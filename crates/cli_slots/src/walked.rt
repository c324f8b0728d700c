// One step of the walk over the tree of bases, which tells the members of the type that it enters.

ghost use Rattle.std.specs.Prelude.{◌≡◌, ◌∷◌, ℕ, List, IfOk};
ghost use Rattle.class_walk.specs.declared.walk.Step.{Step as WalkStep};
ghost use Rattle.class_walk.specs.Walk.{IsBelow, IsWalk};
ghost use Rattle.class_open.specs.Stacks.{AreStacked};
ghost use Rattle.cli_slots.specs.Known.{IsKnown};
ghost use Rattle.cli_slots.specs.Told.{AreWritten};
ghost use Rattle.cli_slots.specs.At.{IsAt, IsStepTold, onward};

use crate::known::Known;
use crate::told::{Told, with_told_of};
use class_open::{Open, closed, opened};
use class_walk::Step;
use dc_base::{NoMemory, TypeId};

/// The virtual methods that stand open, and what is told of the members of all types that were entered.
#[derive(Drop)]
pub struct Progress {
    pub stacks: Open,
    pub told: Told,
}

pub fn stepped(known: &Known, progress: Progress, step: Step) -> Result<Progress, NoMemory>
    requires known { IsKnown known.now }
    requires at { (path : List ℕ) × (rest : List WalkStep) × IsAt known.now path progress × IsWalk known.now.types.now path (step ∷ rest) }
    ensures at { IfOk result (λ new. (path : List ℕ) (rest : List WalkStep) → IsAt known.now path progress → IsWalk known.now.types.now path (step ∷ rest) → IsAt known.now (onward step path) new) }
    ensures told { IfOk result (λ new. IsStepTold known.now step progress new) }
{
    match step {
        Step::Enter(t) => entered(known, progress, t),
        Step::Leave(t) => left(known, progress, t),
    }
}

fn entered(known: &Known, progress: Progress, t: TypeId) -> Result<Progress, NoMemory>
    requires known { IsKnown known.now }
    requires at { (path : List ℕ) × IsAt known.now path progress × IsBelow known.now.types.now path t.0 }
    ensures at { IfOk result (λ new. (path : List ℕ) → IsAt known.now path progress → IsBelow known.now.types.now path t.0 → IsAt known.now (t.0 ∷ path) new) }
    ensures told { IfOk result (λ new. AreWritten known.now progress.stacks.trail progress.told new.told t.0) }
{
    let Progress { stacks, told } = progress;
    let own = known.named.index.of_owner(known.members, t);
    let told = with_told_of(known, &stacks, told, t, own);
    let stacks = opened(stacks, known.signs, told.picks.as_slice(), own)?;
    Ok(Progress { stacks, told })
}

fn left(known: &Known, progress: Progress, t: TypeId) -> Result<Progress, NoMemory>
    requires known { IsKnown known.now }
    requires stacked { AreStacked known.now.signs.now progress.stacks.tops.items progress.stacks.below.items progress.stacks.trail }
    ensures at { IfOk result (λ new. (path : List ℕ) → IsAt known.now (t.0 ∷ path) progress → IsAt known.now path new) }
    ensures told { IfOk result (λ new. new.told ≡ progress.told) }
{
    let Progress { stacks, told } = progress;
    let stacks = closed(stacks, known.members, known.signs, t)?;
    Ok(Progress { stacks, told })
}
