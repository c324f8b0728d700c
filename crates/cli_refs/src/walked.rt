// One step of the walk over the tree of bases, which finds what the references mean that name the type that it enters.

ghost use Rattle.std.specs.Prelude.{◌≡◌, ◌<◌, ◌≤◌, ◌+◌, ◌∷◌, ℕ, List, Some, None, IfOk, length, slice_get};
ghost use Rattle.class_walk.specs.declared.walk.Step.{Step as WalkStep};
ghost use Rattle.class_walk.specs.Walk.{IsBelow, IsWalk};
ghost use Rattle.class_open.specs.Stacks.{AreStacked};
ghost use Rattle.cli_refs.specs.declared.key.Sought.{Sought as SoughtRow};
ghost use Rattle.cli_refs.specs.Sought.{IsMemberMeant};
ghost use Rattle.cli_refs.specs.Known.{IsKnown, IsOpenFrom};
ghost use Rattle.cli_refs.specs.Asked.{Asks};
ghost use Rattle.cli_refs.specs.At.{IsAt, IsStepTold, AreAnswered, IsOneTold};

use crate::asked::Asked;
use crate::key::Sought;
use class_index::MemberIndex;
use class_open::{Open, closed, opened};
use class_rows::{MemberRow, TypeRow};
use class_walk::Step;
use dc_base::{MemberId, NoMemory, TypeId};

/// The rows and the references, and what is computed of them once: an order with each type behind its base, the members by
/// their types, the signs, which members are the first of their signs, and the references by their types.
#[derive(Drop)]
pub struct Known<'k, 'a> {
    pub types: &'k [TypeRow],
    pub members: &'k [MemberRow],
    pub sought: &'k [Sought<'a>],
    pub order: &'k [u32],
    pub index: &'k MemberIndex,
    pub signs: &'k [usize],
    pub picks: &'k [bool],
    pub asked: &'k Asked,
}

/// The members that stand open, and what the references to all types that were entered mean.
#[derive(Drop)]
pub struct Progress {
    pub stacks: Open,
    pub found: Vec<Option<MemberId>>,
}

/// The walk goes one step on: from an open path to the next, whatever the two are.
pub fn stepped(known: &Known, progress: Progress, step: Step) -> Result<Progress, NoMemory>
    requires known { IsKnown known.now }
    requires at { (path : List ℕ) × (rest : List WalkStep) × IsAt known.now path progress × IsWalk known.now.types.now path (step ∷ rest) }
    ensures at { IfOk result (λ new. (path : List ℕ) (rest : List WalkStep) → IsAt known.now path progress → IsWalk known.now.types.now path (step ∷ rest) → (onward : List ℕ) × IsAt known.now onward new × IsWalk known.now.types.now onward rest) }
    ensures told { IfOk result (λ new. IsStepTold known.now step progress.found.items new.found.items) }
{
    match step {
        Step::Enter(t) => entered(known, progress, t),
        Step::Leave(t) => left(known, progress, t),
    }
}

fn entered(known: &Known, progress: Progress, t: TypeId) -> Result<Progress, NoMemory>
    requires known { IsKnown known.now }
    requires at { (path : List ℕ) × IsAt known.now path progress × IsBelow known.now.types.now path t.0 }
    ensures at { IfOk result (λ new. (path : List ℕ) → IsAt known.now path progress → IsBelow known.now.types.now path t.0 → IsAt known.now (t.0 ∷ path) new) }
    ensures told { IfOk result (λ new. AreAnswered known.now t.0 progress.found.items new.found.items) }
{
    let Progress { stacks, found } = progress;
    let own = known.index.of_owner(known.members, t);
    let stacks = opened(stacks, known.signs, known.picks, own)?;
    let found = answered(known, &stacks, found, t);
    Ok(Progress { stacks, found })
}

fn left(known: &Known, progress: Progress, t: TypeId) -> Result<Progress, NoMemory>
    requires known { IsKnown known.now }
    requires stacked { AreStacked known.now.signs.now progress.stacks.tops.items progress.stacks.below.items progress.stacks.trail }
    ensures at { IfOk result (λ new. (path : List ℕ) → IsAt known.now (t.0 ∷ path) progress → IsAt known.now path new) }
    ensures told { IfOk result (λ new. new.found.items ≡ progress.found.items) }
{
    let Progress { stacks, found } = progress;
    let stacks = closed(stacks, known.members, known.signs, t)?;
    Ok(Progress { stacks, found })
}

// What was found, with what the references mean that name a type, where its members stand open.
fn answered(
    known: &Known,
    stacks: &Open,
    found: Vec<Option<MemberId>>,
    t: TypeId,
) -> Vec<Option<MemberId>>
    requires known { IsKnown known.now }
    requires open_ { IsOpenFrom known.now stacks.now t.0 }
    requires long { length found.items ≡ length known.now.sought.now }
    ensures { AreAnswered known.now t.0 found.items result.items }
{
    let mut found = found;
    let mut at = last_of(known, t);
    while let Some(q) = at {
        found = with_one(known, stacks, found, t, q);
        at = before_of(known, q);
    }
    found
}

// What was found, with what a reference means that names the type.
fn with_one(
    known: &Known,
    stacks: &Open,
    found: Vec<Option<MemberId>>,
    t: TypeId,
    q: usize,
) -> Vec<Option<MemberId>>
    requires known { IsKnown known.now }
    requires open_ { IsOpenFrom known.now stacks.now t.0 }
    requires long { length found.items ≡ length known.now.sought.now }
    requires asks { Asks known.now.sought.now t.0 q }
    ensures { IsOneTold known.now q found.items result.items }
{
    let mut found = found;
    found[q] = meant(known, stacks, t, q);
    found
}

// The last reference that names a type.
fn last_of(known: &Known, t: TypeId) -> Option<usize>
    ensures there { t.0 < length known.now.asked.now.last.items → slice_get known.now.asked.now.last.items t.0 ≡ Some result }
    ensures past { length known.now.asked.now.last.items ≤ t.0 → result ≡ None }
{
    match known.asked.last.get(t.0 as usize) {
        Some(last) => *last,
        None => None,
    }
}

// The one before it that names its type.
fn before_of(known: &Known, q: usize) -> Option<usize>
    requires { q < length known.now.asked.now.before.items }
    ensures { slice_get known.now.asked.now.before.items q ≡ Some result }
{
    known.asked.before[q]
}

// What a reference means that names the type that was entered last.
fn meant(known: &Known, stacks: &Open, t: TypeId, q: usize) -> Option<MemberId>
    requires known { IsKnown known.now }
    requires open_ { IsOpenFrom known.now stacks.now t.0 }
    requires asks { Asks known.now.sought.now t.0 q }
    ensures { (s : SoughtRow) → slice_get known.now.sought.now q ≡ Some s → IsMemberMeant known.now.types.now known.now.members.now s result }
{
    match top_for(known, stacks, q) {
        Some(m) => Some(MemberId(m)),
        None => None,
    }
}

// The innermost open member that is what a reference says.
fn top_for(known: &Known, stacks: &Open, q: usize) -> Option<u32>
    requires known { IsKnown known.now }
    requires stacked { AreStacked known.now.signs.now stacks.now.tops.items stacks.now.below.items stacks.now.trail }
    requires within { q < length known.now.sought.now }
    ensures { (s : ℕ) → slice_get known.now.signs.now (length known.now.members.now + q) ≡ Some s → slice_get stacks.now.tops.items s ≡ Some result }
{
    let sign = known.signs[known.members.len() + q];
    stacks.tops[sign]
}
