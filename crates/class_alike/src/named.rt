// The members that have a name of their own.

ghost use Rattle.std.specs.Prelude.{◌≡◌, ◌++◌, ◌∷◌, [], ℕ, List, IsTrue, IfOk, Some, true, false, not, length, slice_get, unwrap_or};
ghost use Rattle.class_rows.specs.Names.{IsReference};
ghost use Rattle.class_index.specs.Order.{IsIndex};
ghost use Rattle.class_alike.specs.Named.{IsNamed, IsOfReference, AreMarks};
ghost use Rattle.dc_base.specs.declared.names.MemberId.{MemberId};

use class_index::MemberIndex;
use class_rows::{MemberRow, TypeRow};
use dc_base::{MemberId, NoMemory, Seq, TypeId};
use std::alloc::Global;

/// The members by their names, and for each whether it has none.
#[derive(Debug, Drop)]
pub struct Named {
    pub index: MemberIndex,
    pub nameless: Seq<bool>,
}

/// An explicit implementation in a type of the references has no name. `explicit` has each explicit implementation with
/// its interface's member.
pub fn named_of(
    alloc: Global,
    types: &[TypeRow],
    members: &[MemberRow],
    explicit: &[(MemberId, MemberId)],
    index: MemberIndex,
) -> Result<Named, NoMemory>
    requires { IsIndex members.now index.order }
    ensures { IfOk result (IsNamed types.now members.now explicit.now) }
{
    let marks = marks_of(alloc, types, members, explicit)?;
    Ok(Named {
        index,
        nameless: Seq::of(marks),
    })
}

/// Whether a member has a name of its own.
pub fn has_name(named: &Named, m: u32) -> bool
    ensures { result ≡ not (unwrap_or (slice_get named.now.nameless m) false) }
{
    match named.nameless.items().get(m as usize) {
        Some(is_nameless) => !*is_nameless,
        None => true,
    }
}

fn marks_of(
    alloc: Global,
    types: &[TypeRow],
    members: &[MemberRow],
    explicit: &[(MemberId, MemberId)],
) -> Result<Vec<bool>, NoMemory>
    ensures { IfOk result (λ marks. AreMarks types.now members.now explicit.now marks.items) }
{
    let mut marks = vec![in alloc; false; members.len()]?;
    for pair in explicit {
        marks = marked(types, members, marks, *pair);
    }
    Ok(marks)
}

// Marks the member of one more pair.
fn marked(
    types: &[TypeRow],
    members: &[MemberRow],
    marks: Vec<bool>,
    pair: (MemberId, MemberId),
) -> Vec<bool>
    requires { length marks.items ≡ length members.now }
    ensures { (seen : List (MemberId × MemberId)) → AreMarks types.now members.now seen marks.items → AreMarks types.now members.now (seen ++ (pair ∷ [])) result.items }
{
    let mut marks = marks;
    if !is_of_reference(types, members, pair.0) {
        return marks;
    }
    marks[pair.0.0 as usize] = true;
    marks
}

fn is_of_reference(types: &[TypeRow], members: &[MemberRow], m: MemberId) -> bool
    ensures yes { IsTrue result → IsOfReference types.now members.now m.0 }
    ensures no { IsOfReference types.now members.now m.0 → IsTrue result }
{
    match members.get(m.0 as usize) {
        Some(row) => is_reference(types, row.owner),
        None => false,
    }
}

fn is_reference(types: &[TypeRow], t: TypeId) -> bool
    ensures yes { IsTrue result → IsReference types.now t.0 }
    ensures no { IsReference types.now t.0 → IsTrue result }
{
    match types.get(t.0 as usize) {
        Some(row) => !row.own,
        None => false,
    }
}
