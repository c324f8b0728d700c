// The table.

ghost use Rattle.std.specs.Prelude.{◌≡◌, ◌<◌, ℕ, length, Some, slice_get, IsTrue, IfOk, IfErr};
ghost use Rattle.dc_causes.specs.Answer.{OnFault};
ghost use Rattle.class_rows.specs.Table.{IsClassTable, MakeTable};
ghost use Rattle.class_rows.specs.Types.{InBaseChain, IsRound};
ghost use Rattle.class_rows.specs.Lookups.{AreAssignable, IsAccessible, IsLookup, IsSlot};
ghost use Rattle.class_lookup.specs.Left.{CanFind, found_left};
ghost use Rattle.class_table.specs.Buildable.{IsBuildable};

use crate::parts::kept_of;
use class_alike::Named;
use class_assign::{Supers, assignable};
use class_lookup::{Found, lookup};
use class_parts::{accessible, derives, is_inside};
use class_rows::{MemberRow, TableFault, TypeRow};
use class_slots::slot;
use dc_base::{MemberId, Or, Seq, Text, Ty, TypeId};
use std::alloc::Global;
use std::marker::Model;

/// Rows that make a class table, and what was computed of them once.
#[derive(Drop)]
pub struct ClassTable {
    types: Vec<TypeRow>,
    members: Vec<MemberRow>,
    explicit: Vec<(MemberId, MemberId)>,
    supers: Supers,
    named: Named,
    slots: Seq<u32>,
}

impl Model for ClassTable {
    ghost use Rattle.class_table.specs.Rows.{Rows};
    ghost use Rattle.class_table.specs.Kept.{IsKept};

    ghost Value = { Rows };

    ghost view = { λ t. record { types = t.types.items; members = t.members.items; explicit = t.explicit.items } };

    ghost invariant = { λ t. IsKept t.types.items t.members.items t.explicit.items t.supers t.named t.slots };
}

/// The rows that a table was built of.
#[derive(Drop)]
pub struct TableRows {
    pub types: Vec<TypeRow>,
    pub members: Vec<MemberRow>,
    pub explicit: Vec<(MemberId, MemberId)>,
}

impl ClassTable {
    /// The rows that the table was built of, handed out so that further ones can be put behind them.
    pub fn into_rows(self) -> TableRows
        ensures types { result.types.items ≡ self.types }
        ensures members { result.members.items ≡ self.members }
        ensures explicit { result.explicit.items ≡ self.explicit }
    {
        let ClassTable {
            types,
            members,
            explicit,
            ..
        } = self;
        TableRows {
            types,
            members,
            explicit,
        }
    }

    /// How many types there are.
    pub fn types(&self) -> u32
        ensures { result ≡ length self.now.types }
    {
        self.types.len() as u32
    }

    /// How many members there are.
    pub fn members(&self) -> u32
        ensures { result ≡ length self.now.members }
    {
        self.members.len() as u32
    }

    /// That the rows make a class table: a law, and no step.
    pub fn is_class_table(&self)
        ensures { IsClassTable self.now.types self.now.members self.now.explicit }
    {
        let _ = &self.types;
    }

    /// The type of this number.
    pub fn type_row(&self, t: TypeId) -> &TypeRow
        requires { t.0 < length self.now.types }
        ensures { slice_get self.now.types t.0 ≡ Some result.now }
    {
        &self.types[t.0 as usize]
    }

    /// The member of this number.
    pub fn member_row(&self, m: MemberId) -> &MemberRow
        requires { m.0 < length self.now.members }
        ensures { slice_get self.now.members m.0 ≡ Some result.now }
    {
        &self.members[m.0 as usize]
    }

    /// Whether a reference to each of these types may stand where one to `to` is wanted.
    pub fn assignable(&self, set: &[Ty], to: Ty) -> bool
        ensures yes { IsTrue result → AreAssignable self.now.types set.now to }
        ensures no { AreAssignable self.now.types set.now to → IsTrue result }
    {
        assignable(self.types.as_slice(), &self.supers, set, to)
    }

    /// The members of a name that a look-up in a type finds, in order: first the type's own. Overrides and members without
    /// a name are left out.
    pub fn lookup(&self, t: TypeId, name: &Text) -> Found<'_>
        ensures can { CanFind result }
        ensures found { IsLookup self.now.types self.now.members self.now.explicit t.0 name.now (found_left result) }
    {
        let types = self.types.as_slice();
        let members = self.members.as_slice();
        let explicit = self.explicit.as_slice();
        lookup(types, members, explicit, &self.supers, &self.named, t, name)
    }

    /// The member that introduced the slot of a member; the member itself where it takes none over.
    pub fn slot(&self, m: MemberId) -> MemberId
        requires { m.0 < length self.now.members }
        ensures { IsSlot self.now.types self.now.members self.now.explicit m.0 result.0 }
    {
        let types = self.types.as_slice();
        let members = self.members.as_slice();
        slot(types, members, self.explicit.as_slice(), &self.slots, m)
    }

    /// Whether a type is `above` or has it in its base chain. It takes the time of that chain.
    pub fn derives(&self, t: TypeId, above: TypeId) -> bool
        ensures yes { IsTrue result → InBaseChain self.now.types t.0 above.0 }
        ensures no { InBaseChain self.now.types t.0 above.0 → IsTrue result }
    {
        let order = self.supers.orders.bases.items();
        derives(self.types.as_slice(), order, t, above)
    }

    /// Whether a type is `round` or is nested in it, over however many others.
    pub fn is_inside(&self, t: TypeId, round: TypeId) -> bool
        ensures yes { IsTrue result → IsRound self.now.types t.0 round.0 }
        ensures no { IsRound self.now.types t.0 round.0 → IsTrue result }
    {
        let order = self.supers.orders.outers.items();
        is_inside(self.types.as_slice(), order, t, round)
    }

    /// Whether a member may be named from the type `from`; what is reached by an instance goes `through` its type.
    pub fn accessible(&self, from: TypeId, m: MemberId, through: Option<TypeId>) -> bool
        requires { m.0 < length self.now.members }
        ensures yes { IsTrue result → IsAccessible self.now.types self.now.members from.0 m.0 through }
        ensures no { IsAccessible self.now.types self.now.members from.0 m.0 through → IsTrue result }
    {
        let types = self.types.as_slice();
        let members = self.members.as_slice();
        accessible(types, members, &self.supers.orders, from, m, through)
    }
}

/// Builds the table of some rows, where they make one; else the fault is that of the first part that fails, at the least
/// number at which it does.
pub fn build(
    alloc: Global,
    types: Vec<TypeRow>,
    members: Vec<MemberRow>,
    explicit: Vec<(MemberId, MemberId)>,
) -> Result<ClassTable, Or<TableFault>>
    requires { IsBuildable types.items members.items explicit.items }
    ensures rows { IfOk result (λ table. (table.types ≡ types.items) × (table.members ≡ members.items) × (table.explicit ≡ explicit.items)) }
    ensures table { IfOk result (λ table. IsClassTable table.types table.members table.explicit) }
    ensures fault { IfErr result (OnFault (MakeTable types.items members.items explicit.items)) }
{
    let kept = kept_of(
        alloc,
        types.as_slice(),
        members.as_slice(),
        explicit.as_slice(),
    )?;
    Ok(ClassTable {
        types,
        members,
        explicit,
        supers: kept.supers,
        named: kept.named,
        slots: kept.slots,
    })
}
