// One walk over the tree of bases, which tells the least missing method of each type that it enters.

ghost use Rattle.std.specs.Prelude.{◌≡◌, ◌⊎◌, ◌<◌, ◌^◌, ◌∷◌, [], ℕ, List, Option, Some, None, true, IfOk, length, replicate, set, slice_get};
ghost use Rattle.class_keys.specs.Least.{IsLeastOf};
ghost use Rattle.class_walk.specs.declared.walk.Step.{Step as WalkStep};
ghost use Rattle.class_walk.specs.Walk.{IsBelow, IsWalk};
ghost use Rattle.class_implemented.specs.Known.{IsKnown};
ghost use Rattle.class_implemented.specs.Standing.{IsStanding};
ghost use Rattle.class_implemented.specs.Open.{IsMissing, AreClean, ArePassed};
ghost use Rattle.class_implemented.specs.Progress.{IsAt, IsToldWith, IsStepTold, AreLeast};

use crate::explicit::nones as none_least;
use crate::known::Known;
use crate::missing::{is_class, missing};
use crate::passed::passed_by;
use crate::standing::{Standing, downs, entered, left, none_standing, nones};
use class_walk::{Step, walk_of};
use dc_base::{NoMemory, TypeId};
use std::alloc::Global;

/// For each type whether nothing is missing in it, and the last class for which it was gone through.
#[derive(Drop)]
pub struct Marks {
    pub clean: Vec<bool>,
    pub passed: Vec<Option<u32>>,
}

/// What stands open, and what is told of the types that were entered.
#[derive(Drop)]
pub struct Progress {
    pub standing: Standing,
    pub marks: Marks,
    pub least: Vec<Option<usize>>,
}

/// For each type the least method that is missing in it.
pub fn least_of_each(alloc: Global, known: &Known) -> Result<Vec<Option<usize>>, NoMemory>
    requires few { length known.now.types.now < 2 ^ 32 }
    requires known { IsKnown known.now }
    ensures { IfOk result (λ least. AreLeast known.now least.items) }
{
    let walk = walk_of(alloc, known.types, known.order)?;
    let mut progress = none_told(alloc, known)?;
    for step in walk.as_slice() {
        progress = stepped(known, progress, *step)?;
    }
    Ok(progress.least)
}

fn none_told(alloc: Global, known: &Known) -> Result<Progress, NoMemory>
    requires { IsKnown known.now }
    ensures { IfOk result (λ new. IsAt known.now [] new) }
{
    let standing = none_standing(alloc, known)?;
    let clean = downs(alloc, known.types.len())?;
    let passed = nones(alloc, known.types.len())?;
    let least = none_least(alloc, known.types.len())?;
    Ok(Progress {
        standing,
        marks: Marks { clean, passed },
        least,
    })
}

fn stepped(known: &Known, progress: Progress, step: Step) -> Result<Progress, NoMemory>
    requires known { IsKnown known.now }
    requires at { (path : List ℕ) × (rest : List WalkStep) × IsAt known.now path progress × IsWalk known.now.types.now path (step ∷ rest) }
    ensures at { IfOk result (λ new. (path : List ℕ) (rest : List WalkStep) → IsAt known.now path progress → IsWalk known.now.types.now path (step ∷ rest) → (onward : List ℕ) × IsAt known.now onward new × IsWalk known.now.types.now onward rest) }
    ensures told { IfOk result (λ new. IsStepTold known.now step progress.least.items new.least.items) }
{
    match step {
        Step::Enter(t) => with_type(known, progress, t),
        Step::Leave(t) => without_type(known, progress, t),
    }
}

fn with_type(known: &Known, progress: Progress, t: TypeId) -> Result<Progress, NoMemory>
    requires known { IsKnown known.now }
    requires at { (path : List ℕ) × IsAt known.now path progress × IsBelow known.now.types.now path t.0 }
    ensures at { IfOk result (λ new. (path : List ℕ) → IsAt known.now path progress → IsBelow known.now.types.now path t.0 → IsAt known.now (t.0 ∷ path) new) }
    ensures told { IfOk result (λ new. IsToldWith known.now t.0 progress.least.items new.least.items) }
{
    let Progress {
        standing,
        marks,
        least,
    } = progress;
    let standing = entered(known, standing, t)?;
    let found = found_in(known, &standing, &marks, t);
    Ok(Progress {
        standing,
        marks: with_found(known, marks, t, found),
        least: with_least(least, t, found),
    })
}

fn found_in(known: &Known, standing: &Standing, marks: &Marks, t: TypeId) -> Option<usize>
    requires known { IsKnown known.now }
    requires standing { (path : List ℕ) × IsStanding known.now (t.0 ∷ path) standing.now }
    requires clean { AreClean known.now marks.now.clean.items }
    requires passed { ArePassed known.now marks.now.passed.items }
    ensures { IsLeastOf (IsMissing known.now t.0) result }
{
    let clean = marks.clean.as_slice();
    let passed = marks.passed.as_slice();
    missing(known, standing, clean, passed, t)
}

fn with_least(mut least: Vec<Option<usize>>, t: TypeId, found: Option<usize>) -> Vec<Option<usize>>
    ensures { result.items ≡ set least.items t.0 found }
{
    if (t.0 as usize) < least.len() {
        least[t.0 as usize] = found;
    }
    least
}

fn without_type(known: &Known, progress: Progress, t: TypeId) -> Result<Progress, NoMemory>
    requires known { IsKnown known.now }
    requires at { (path : List ℕ) × IsAt known.now path progress }
    ensures at { IfOk result (λ new. (path : List ℕ) → IsAt known.now (t.0 ∷ path) progress → IsAt known.now path new) }
    ensures told { IfOk result (λ new. new.least.items ≡ progress.least.items) }
{
    let Progress {
        standing,
        marks,
        least,
    } = progress;
    let standing = left(known, standing, t)?;
    Ok(Progress {
        standing,
        marks,
        least,
    })
}

// Marks a type in which nothing is missing.
fn with_found(known: &Known, marks: Marks, c: TypeId, found: Option<usize>) -> Marks
    requires known { IsKnown known.now }
    requires clean { AreClean known.now marks.clean.items }
    requires passed { ArePassed known.now marks.passed.items }
    requires found { IsLeastOf (IsMissing known.now c.0) found }
    ensures clean { AreClean known.now result.clean.items }
    ensures passed { ArePassed known.now result.passed.items }
{
    match found {
        Some(_) => marks,
        None => {
            let Marks { clean, passed } = marks;
            Marks {
                clean: with_clean(clean, c),
                passed: with_class(known, passed, c),
            }
        }
    }
}

fn with_clean(mut clean: Vec<bool>, c: TypeId) -> Vec<bool>
    ensures { (t : ℕ) → slice_get result.items t ≡ Some true → (t ≡ c.0) ⊎ (slice_get clean.items t ≡ Some true) }
{
    if (c.0 as usize) < clean.len() {
        clean[c.0 as usize] = true;
    }
    clean
}

fn with_class(known: &Known, passed: Vec<Option<u32>>, c: TypeId) -> Vec<Option<u32>>
    requires known { IsKnown known.now }
    requires passed { ArePassed known.now passed.items }
    requires none { (m : ℕ) → IsMissing known.now c.0 m → ⊥ }
    ensures { ArePassed known.now result.items }
{
    if is_class(known.types, c) {
        passed_by(known, passed, c)
    } else {
        passed
    }
}
