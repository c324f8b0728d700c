// The member that a token means.

ghost use Rattle.std.specs.Prelude.{◌≡◌, ◌<◌, ◌≤◌, ◌+◌, ◌^◌, ℕ, length, slice_get, Some, IfSome, IfNone};
ghost use Rattle.cli_members.specs.declared.numbers.Owned.{Owned};
ghost use Rattle.cli_members.specs.Members.{AreInOrder, IsPlace, IsNamed};

use crate::Owned;
use dc_base::{MemberId, Token};

// How many rows a token can tell of a table, with row 0.
const ROWS: u32 = 0x100_0000;

/// The member that a token of Field or MethodDef means, where the first own member is `own_from`. It takes the time of a binary
/// search.
pub fn member_of(
    fields: &[Owned],
    methods: &[Owned],
    own_from: u32,
    token: Token,
) -> Option<MemberId>
    requires fields { AreInOrder fields.now }
    requires methods { AreInOrder methods.now }
    requires room { own_from + (length fields.now + length methods.now) ≤ 2 ^ 32 }
    ensures some { IfSome result (λ member. IsNamed fields.now methods.now own_from token member.0) }
    ensures none { IfNone result ((m : ℕ) → IsNamed fields.now methods.now own_from token m → ⊥) }
{
    let row = token.0 % ROWS;
    match token.0 / ROWS {
        0x04 => match place_of(fields, row) {
            Some(place) => Some(MemberId(own_from + place as u32)),
            None => None,
        },
        0x06 => match place_of(methods, row) {
            Some(place) => Some(MemberId(own_from + (fields.len() + place) as u32)),
            None => None,
        },
        _ => None,
    }
}

// Where a row stands.
fn place_of(owned: &[Owned], row: u32) -> Option<usize>
    requires { AreInOrder owned.now }
    ensures some { IfSome result (IsPlace owned.now row) }
    ensures none { IfNone result ((place : ℕ) → IsPlace owned.now row place → ⊥) }
{
    let place = owned.partition_point(|o| o.row < row);
    if place < owned.len() && owned[place].row == row {
        Some(place)
    } else {
        None
    }
}
