// The member that a token means.

ghost use Rattle.std.specs.Prelude.{◌≡◌, ◌-◌, ◌^◌, ℕ, IfSome, IfNone};
ghost use Rattle.cli_metadata.specs.Metadata.{coded_of};
ghost use Rattle.cli_explicit.specs.Explicit.{IsSound, IsReferred, Means, IsMeantBy};

use cli_members::{Owned, member_of};
use cli_metadata::CodedIndex;
use dc_base::{MemberId, Token};

/// A number that no list of members has, and so names nothing.
pub const NOTHING: MemberId = MemberId(u32::MAX);

// How many rows a token can tell of a table, with row 0.
const ROWS: u32 = 0x100_0000;

/// The rows of Field and of MethodDef that are members, the number of the first of these members, and the member that each row of
/// MemberRef means, from row 1 on, where it means one.
#[derive(Clone, Copy, Debug)]
pub struct Meant<'a> {
    pub fields: &'a [Owned],
    pub methods: &'a [Owned],
    pub own_from: u32,
    pub refs: &'a [Option<MemberId>],
}

// The member that a cell means, or the number that names nothing.
pub(crate) fn meant_by(members: &Meant<'_>, cell: CodedIndex) -> MemberId
    requires { IsSound members.now }
    ensures { IsMeantBy members.now (coded_of cell.kind cell.cell) result }
{
    match cell.token() {
        Some(token) => match named(members, token) {
            Some(member) => member,
            None => NOTHING,
        },
        None => NOTHING,
    }
}

fn named(members: &Meant<'_>, token: Token) -> Option<MemberId>
    requires { IsSound members.now }
    ensures some { IfSome result (λ m. Means members.now token m.0) }
    ensures none { IfNone result ((m : ℕ) → Means members.now token m → ⊥) }
{
    if token.0 / ROWS != 0x0A {
        return member_of(members.fields, members.methods, members.own_from, token);
    }
    match referred(members, token) {
        Some(member) => Some(member),
        None => None,
    }
}

// The member that a row of MemberRef means.
fn referred(members: &Meant<'_>, token: Token) -> Option<MemberId>
    ensures some { IfSome result (λ m. IsReferred members.now token m.0) }
    ensures none { IfNone result ((m : ℕ) → IsReferred members.now token m → ⊥) }
{
    let row = token.0 % ROWS;
    if row == 0 {
        return None;
    }
    match members.refs.get(row as usize - 1) {
        Some(found) => *found,
        None => None,
    }
}
