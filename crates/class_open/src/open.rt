// Stacks of open members, one for each sign.

ghost use Rattle.std.specs.Prelude.{◌≡◌, ◌<◌, ◌∷◌, [], ℕ, Some, None, length, replicate, slice_get, Contains, IsTrue, true, IfOk};
ghost use Rattle.class_rows.specs.Members.{IsOf};
ghost use Rattle.class_index.specs.Index.{AreApart};
ghost use Rattle.class_open.specs.Trail.{Has};
ghost use Rattle.class_open.specs.Stacks.{AreStacked, IsOneMore, AreMore, AreLess};

use class_rows::MemberRow;
use dc_base::{NoMemory, Stack, TypeId};
use std::alloc::Global;

/// The open members, the innermost first. Of each sign `tops` has the innermost open member, and of each open member
/// `below` has the next one out of its sign.
#[derive(Debug, Drop)]
pub struct Open {
    pub tops: Vec<Option<u32>>,
    pub below: Vec<Option<u32>>,
    pub trail: Stack<u32>,
}

/// No member is open.
pub fn none_open(alloc: Global, signs: &[usize]) -> Result<Open, NoMemory>
    requires { (m s : ℕ) → slice_get signs.now m ≡ Some s → s < length signs.now }
    ensures stacked { IfOk result (λ new. AreStacked signs.now new.tops.items new.below.items new.trail) }
    ensures none { IfOk result (λ new. new.trail ≡ []) }
{
    let tops = nones(alloc, signs.len())?;
    let below = nones(alloc, signs.len())?;
    Ok(Open {
        tops,
        below,
        trail: Stack::new(alloc),
    })
}

fn nones(alloc: Global, count: usize) -> Result<Vec<Option<u32>>, NoMemory>
    ensures { IfOk result (λ nones. nones.items ≡ replicate count None) }
{
    Ok(vec![in alloc; None; count]?)
}

/// The members of a type are opened, as far as they are picked.
pub fn opened(state: Open, signs: &[usize], picks: &[bool], own: &[u32]) -> Result<Open, NoMemory>
    requires stacked { AreStacked signs.now state.tops.items state.below.items state.trail }
    requires apart { AreApart own.now }
    requires within { (k m : ℕ) → slice_get own.now k ≡ Some m → m < length signs.now }
    requires fresh { (m : ℕ) → Contains own.now m → Has state.trail m → ⊥ }
    ensures stacked { IfOk result (λ new. AreStacked signs.now new.tops.items new.below.items new.trail) }
    ensures more { IfOk result (λ new. AreMore picks.now own.now state.trail new.trail) }
{
    let mut state = state;
    for m in own {
        state = with_picked(state, signs, picks, *m)?;
    }
    Ok(state)
}

fn with_picked(state: Open, signs: &[usize], picks: &[bool], m: u32) -> Result<Open, NoMemory>
    requires stacked { AreStacked signs.now state.tops.items state.below.items state.trail }
    requires within { m < length signs.now }
    requires fresh { Has state.trail m → ⊥ }
    ensures stacked { IfOk result (λ new. AreStacked signs.now new.tops.items new.below.items new.trail) }
    ensures more { IfOk result (λ new. IsOneMore picks.now m state.trail new.trail) }
{
    if is_picked(picks, m) {
        with_open(state, signs, m)
    } else {
        Ok(state)
    }
}

fn is_picked(picks: &[bool], m: u32) -> bool
    ensures yes { IsTrue result → slice_get picks.now m ≡ Some true }
    ensures no { slice_get picks.now m ≡ Some true → IsTrue result }
{
    match picks.get(m as usize) {
        Some(flag) => *flag,
        None => false,
    }
}

// One more member is open.
fn with_open(state: Open, signs: &[usize], m: u32) -> Result<Open, NoMemory>
    requires stacked { AreStacked signs.now state.tops.items state.below.items state.trail }
    requires within { m < length signs.now }
    requires fresh { Has state.trail m → ⊥ }
    ensures stacked { IfOk result (λ new. AreStacked signs.now new.tops.items new.below.items new.trail) }
    ensures more { IfOk result (λ new. new.trail ≡ m ∷ state.trail) }
{
    let Open { tops, below, trail } = state;
    let mut tops = tops;
    let mut below = below;
    let mut trail = trail;
    let sign = signs[m as usize];
    below[m as usize] = tops[sign];
    tops[sign] = Some(m);
    trail.push(m)?;
    Ok(Open { tops, below, trail })
}

/// The innermost open members are closed, as far as they are members of a type.
pub fn closed(
    state: Open,
    members: &[MemberRow],
    signs: &[usize],
    t: TypeId,
) -> Result<Open, NoMemory>
    requires stacked { AreStacked signs.now state.tops.items state.below.items state.trail }
    ensures stacked { IfOk result (λ new. AreStacked signs.now new.tops.items new.below.items new.trail) }
    ensures less { IfOk result (λ new. AreLess members.now t.0 state.trail new.trail) }
{
    let Open { tops, below, trail } = state;
    let mut tops = tops;
    let mut trail = trail;
    while let Some(m) = trail.pop() {
        if !is_of(members, m, t) {
            trail.push(m)?;
            return Ok(Open { tops, below, trail });
        }
        tops[signs[m as usize]] = below[m as usize];
    }
    Ok(Open { tops, below, trail })
}

fn is_of(members: &[MemberRow], m: u32, t: TypeId) -> bool
    ensures yes { IsTrue result → IsOf members.now t.0 m }
    ensures no { IsOf members.now t.0 m → IsTrue result }
{
    match members.get(m as usize) {
        Some(row) => row.owner == t,
        None => false,
    }
}
