// What the conditions are asked of.

ghost use Rattle.std.specs.Prelude.{◌≡◌, ◌+◌, ◌-◌, ◌<◌, length, slice_get, Some};
ghost use Rattle.std.specs.Bool.{OnTrue};
ghost use Rattle.cli_shapes.specs.Own.{IsSound, AreRising, type_token};

use class_rows::{MemberRow, TypeRow};
use class_table::ClassTable;
use dc_base::{MemberId, Prim_, Token, TypeId};

/// The types and members of the assembly itself: in the table they stand behind those of its references.
#[derive(Drop)]
pub struct Own<'a> {
    pub table: &'a ClassTable,
    pub first_type: TypeId,
    pub first_member: MemberId,
    /// What is told of each own member, in their order, which is that of their tokens.
    pub told: &'a [Told],
    /// The instance fields of each own type, in their order; they are asked of enums alone.
    pub instances: &'a [Instances],
}

/// What a member's row in the metadata tells beside its row in the table.
#[derive(Clone, Copy, Debug, PartialEq, Eq)]
pub struct Told {
    pub token: Token,
    /// Whether it is a method that has a body.
    pub has_body: bool,
    /// Whether its signature is the usual one of a delegate's constructor (ECMA-335 II.14.6): on an instance, with an object
    /// and a native integer, without a result.
    pub makes_delegate: bool,
}

/// How many instance fields a type has, and the primitive type of the first, where that is of one.
#[derive(Clone, Copy, Debug, PartialEq, Eq)]
pub struct Instances {
    pub count: u32,
    pub first: Option<Prim_>,
}

impl<'a> Own<'a> {
    // How many own types there are.
    pub(crate) fn types(&self) -> usize
        requires { IsSound self.now }
        ensures { result ≡ length self.now.table.now.types - self.now.first_type.0 }
    {
        (self.table.types() - self.first_type.0) as usize
    }

    // The row of own type t.
    pub(crate) fn type_row(&self, t: usize) -> &TypeRow
        requires sound { IsSound self.now }
        requires within { t < length self.now.table.now.types - self.now.first_type.0 }
        ensures { slice_get self.now.table.now.types (self.now.first_type.0 + t) ≡ Some result.now }
    {
        let _count = self.table.types();
        self.table.type_row(TypeId(self.first_type.0 + t as u32))
    }

    // The token of own type t.
    pub(crate) fn type_token(&self, t: usize) -> Token
        requires sound { IsSound self.now }
        requires within { t < length self.now.table.now.types - self.now.first_type.0 }
        ensures { result ≡ type_token t }
    {
        Token(0x0200_0002 + t as u32)
    }

    // The row of own member k.
    pub(crate) fn member_row(&self, k: usize) -> &MemberRow
        requires sound { IsSound self.now }
        requires within { k < length self.now.told.now }
        ensures { slice_get self.now.table.now.members (self.now.first_member.0 + k) ≡ Some result.now }
    {
        self.table.member_row(self.member(k))
    }

    // Own member k.
    pub(crate) fn member(&self, k: usize) -> MemberId
        requires sound { IsSound self.now }
        requires within { k < length self.now.told.now }
        ensures is { result.0 ≡ self.now.first_member.0 + k }
        ensures there { result.0 < length self.now.table.now.members }
    {
        let _count = self.table.members();
        MemberId(self.first_member.0 + k as u32)
    }
}

/// Whether what is handed in fits together: own types and members end the lists of the table, three bytes hold each row's
/// number, and the tokens of members rise.
pub fn is_sound(own: &Own<'_>) -> bool
    ensures { OnTrue result (IsSound own.now) }
{
    let types = own.table.types();
    let members = u64::from(own.table.members());
    own.first_type.0 <= types
        && u64::from(types) + 1 < u64::from(own.first_type.0) + 0x100_0000
        && members == u64::from(own.first_member.0) + own.told.len() as u64
        && are_rising(own.told)
}

// Whether the tokens of members rise.
fn are_rising(told: &[Told]) -> bool
    ensures { OnTrue result (AreRising told.now) }
{
    let mut bound: u64 = 0;
    for k in 0..told.len() {
        let number = u64::from(told[k].token.0);
        if number < bound {
            return false;
        }
        bound = number + 1;
    }
    true
}
