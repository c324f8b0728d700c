// What stands open on the way of a walk over the tree of bases.

ghost use Rattle.std.specs.Prelude.{◌≡◌, ◌∷◌, [], ◌<◌, ℕ, List, Some, None, true, false, length, replicate, set, slice_get, IfOk};
ghost use Rattle.class_walk.specs.Walk.{IsBelow};
ghost use Rattle.class_open.specs.Stacks.{AreStacked};
ghost use Rattle.class_implemented.specs.Known.{IsKnown};
ghost use Rattle.class_implemented.specs.Marked.{AreMarkedMore};
ghost use Rattle.class_implemented.specs.Standing.{IsStanding};

use crate::known::Known;
use crate::marked::with_marks;
use class_open::{Open, closed, none_open, opened};
use dc_base::{NoMemory, TypeId};
use std::alloc::Global;

/// The public instance members of the types on the way, a flag for each of these types, and for each method the outermost
/// of them that implements it explicitly.
#[derive(Drop)]
pub struct Standing {
    pub stacks: Open,
    pub flags: Vec<bool>,
    pub marks: Vec<Option<u32>>,
}

/// No type is on the way.
pub fn none_standing(alloc: Global, known: &Known) -> Result<Standing, NoMemory>
    requires { IsKnown known.now }
    ensures { IfOk result (IsStanding known.now []) }
{
    let stacks = none_open(alloc, known.signs)?;
    let flags = downs(alloc, known.types.len())?;
    let marks = nones(alloc, known.members.len())?;
    Ok(Standing {
        stacks,
        flags,
        marks,
    })
}

pub fn downs(alloc: Global, count: usize) -> Result<Vec<bool>, NoMemory>
    ensures { IfOk result (λ downs. downs.items ≡ replicate count false) }
{
    Ok(vec![in alloc; false; count]?)
}

pub fn nones(alloc: Global, count: usize) -> Result<Vec<Option<u32>>, NoMemory>
    ensures { IfOk result (λ nones. nones.items ≡ replicate count None) }
{
    Ok(vec![in alloc; None; count]?)
}

/// A type is entered.
pub fn entered(known: &Known, standing: Standing, t: TypeId) -> Result<Standing, NoMemory>
    requires known { IsKnown known.now }
    requires below { (path : List ℕ) × IsStanding known.now path standing × IsBelow known.now.types.now path t.0 }
    ensures { IfOk result (λ new. (path : List ℕ) → IsStanding known.now path standing → IsBelow known.now.types.now path t.0 → IsStanding known.now (t.0 ∷ path) new) }
{
    let Standing {
        stacks,
        flags,
        marks,
    } = standing;
    let own = known.index.of_owner(known.members, t);
    let stacks = opened(stacks, known.signs, known.implicit, own)?;
    let flags = with_flag(flags, t, true);
    let marks = marks_with(known, flags.as_slice(), marks, t);
    Ok(Standing {
        stacks,
        flags,
        marks,
    })
}

fn with_flag(mut flags: Vec<bool>, t: TypeId, flag: bool) -> Vec<bool>
    ensures { result.items ≡ set flags.items t.0 flag }
{
    if (t.0 as usize) < flags.len() {
        flags[t.0 as usize] = flag;
    }
    flags
}

fn marks_with(known: &Known, flags: &[bool], marks: Vec<Option<u32>>, t: TypeId) -> Vec<Option<u32>>
    requires known { IsKnown known.now }
    requires flagged { t.0 < length known.now.types.now → slice_get flags.now t.0 ≡ Some true }
    ensures { AreMarkedMore known.now flags.now t.0 marks.items result.items }
{
    if (t.0 as usize) < known.types.len() {
        with_marks(known, flags, marks, t)
    } else {
        marks
    }
}

/// The innermost type is left.
pub fn left(known: &Known, standing: Standing, t: TypeId) -> Result<Standing, NoMemory>
    requires known { IsKnown known.now }
    requires stacked { AreStacked known.now.signs.now standing.stacks.tops.items standing.stacks.below.items standing.stacks.trail }
    ensures { IfOk result (λ new. (path : List ℕ) → IsStanding known.now (t.0 ∷ path) standing → IsStanding known.now path new) }
{
    let Standing {
        stacks,
        flags,
        marks,
    } = standing;
    let stacks = closed(stacks, known.members, known.signs, t)?;
    let flags = with_flag(flags, t, false);
    Ok(Standing {
        stacks,
        flags,
        marks,
    })
}
