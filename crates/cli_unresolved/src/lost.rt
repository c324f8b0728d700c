// References that mean nothing.

ghost use Rattle.std.specs.Prelude.{◌≡◌, ◌<◌, ◌≤◌, ℕ, false, length, slice_index_or, IfNone, IfSome};
ghost use Rattle.std.specs.Bool.{OnTrue, OnFalse};
ghost use Rattle.dc_causes.specs.First.{IsLeast};
ghost use Rattle.cli_unresolved.specs.Unresolved.{IsLost, IsFirstLost};

use cli_named::Numbers;
use dc_base::{MemberId, Token, TypeId};

// How many rows a token can tell of a table, with row 0.
const ROWS: u32 = 0x100_0000;

/// The token of the first row of TypeRef, else of MemberRef, that is reached and means nothing. `marks` says of each row that
/// has a number whether it is reached, and `types` and `members` what the rows of the two tables mean.
pub fn first_lost(
    numbers: &Numbers,
    marks: &[bool],
    types: &[Option<TypeId>],
    members: &[Option<MemberId>],
) -> Option<Token>
    requires types { length types.now ≤ 0xFFFFFF }
    requires members { length members.now ≤ 0xFFFFFF }
    requires refs { numbers.now.type_refs ≤ 0xFFFFFF }
    requires specs { numbers.now.type_specs ≤ 0xFFFFFF }
    ensures { IsFirstLost numbers.now marks.now types.now members.now result }
{
    if let Some(k) = lost(marks, 0, types) {
        return Some(Token(0x01 * ROWS + (k as u32 + 1)));
    }
    match lost(
        marks,
        (numbers.type_refs + numbers.type_specs) as usize,
        members,
    ) {
        Some(k) => Some(Token(0x0A * ROWS + (k as u32 + 1))),
        None => None,
    }
}

// The first row of a table that is reached and means nothing, where so many rows have numbers before it.
fn lost<X: Copy>(marks: &[bool], before: usize, found: &[Option<X>]) -> Option<usize>
    requires few { length found.now ≤ 0xFFFFFF }
    requires before { before ≤ 0x1FFFFFE }
    ensures within { IfSome result (λ k. k < length found.now) }
    ensures some { IfSome result (IsLeast (IsLost marks.now before found.now)) }
    ensures none { IfNone result ((k : ℕ) → IsLost marks.now before found.now k → ⊥) }
{
    for k in 0..found.len() {
        if is_lost(marks, before, found, k) {
            return Some(k);
        }
    }
    None
}

fn is_lost<X: Copy>(marks: &[bool], before: usize, found: &[Option<X>], k: usize) -> bool
    requires few { length found.now ≤ 0xFFFFFF }
    requires before { before ≤ 0x1FFFFFE }
    requires within { k < length found.now }
    ensures yes { OnTrue result (IsLost marks.now before found.now k) }
    ensures no { OnFalse result (IsLost marks.now before found.now k → ⊥) }
{
    is_marked(marks, before + k) && found[k].is_none()
}

fn is_marked(marks: &[bool], number: usize) -> bool
    ensures { result ≡ slice_index_or marks.now number false }
{
    match marks.get(number) {
        Some(mark) => *mark,
        None => false,
    }
}
