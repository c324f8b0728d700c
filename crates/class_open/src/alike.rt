// The innermost open member that is alike to a member.

ghost use Rattle.std.specs.Prelude.{◌≡◌, ◌<◌, ℕ, length, Some, slice_get, IsTrue, IfSome, IfNone};
ghost use Rattle.class_open.specs.Trail.{Has, FirstIn, IsAlikeTo};
ghost use Rattle.class_open.specs.Signs.{AreSigns};
ghost use Rattle.class_open.specs.Stacks.{AreStacked};

use crate::open::Open;
use class_alike::are_alike;
use class_rows::{MemberRow, TypeRow};

/// The innermost open member that is alike to a member, whose row is `row`. It takes the time of those open members that
/// agree with it in all but the ways in which parameters are handed over, up to that one.
pub fn innermost_alike(
    types: &[TypeRow],
    members: &[MemberRow],
    signs: &[usize],
    state: &Open,
    m: u32,
    row: &MemberRow,
) -> Option<u32>
    requires signs { AreSigns members.now signs.now }
    requires stacked { AreStacked signs.now state.now.tops.items state.now.below.items state.now.trail }
    requires stands { slice_get members.now m ≡ Some row.now }
    ensures some { IfSome result (λ n. FirstIn (IsAlikeTo types.now members.now row.now) state.now.trail n) }
    ensures none { IfNone result ((n : ℕ) → Has state.now.trail n → IsAlikeTo types.now members.now row.now n → ⊥) }
{
    let mut at = top_for(signs, state, m);
    while let Some(n) = at {
        if is_alike(types, members, n, row) {
            return Some(n);
        }
        at = next_out(state, n);
    }
    None
}

// The innermost open member of a member's sign.
fn top_for(signs: &[usize], state: &Open, m: u32) -> Option<u32>
    requires stacked { AreStacked signs.now state.now.tops.items state.now.below.items state.now.trail }
    requires within { m < length signs.now }
    ensures { (s : ℕ) → slice_get signs.now m ≡ Some s → slice_get state.now.tops.items s ≡ Some result }
{
    let sign = signs[m as usize];
    state.tops[sign]
}

// The next open member out of a member's sign.
fn next_out(state: &Open, n: u32) -> Option<u32>
    requires { n < length state.now.below.items }
    ensures { slice_get state.now.below.items n ≡ Some result }
{
    state.below[n as usize]
}

fn is_alike(types: &[TypeRow], members: &[MemberRow], n: u32, row: &MemberRow) -> bool
    ensures yes { IsTrue result → IsAlikeTo types.now members.now row.now n }
    ensures no { IsAlikeTo types.now members.now row.now n → IsTrue result }
{
    match members.get(n as usize) {
        Some(other) => are_alike(types, other, row),
        None => false,
    }
}
