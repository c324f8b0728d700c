// Members that may not share the name of the first member that goes by it.

ghost use Rattle.std.specs.Prelude.{◌≡◌, ◌<◌, length, IsTrue, IfOk};
ghost use Rattle.class_keys.specs.Least.{IsLeastOf};
ghost use Rattle.class_members.specs.Groups.{AreFirstNamed, IsFirstClash, IsOdd};
ghost use Rattle.class_members.specs.Names.{IsNameIn, AreNamesIn};

use crate::nested::NameIn;
use crate::pair::may_share_name;
use crate::reference::is_reference;
use class_index::known_name;
use class_keys::{first_indices, lesser};
use class_rows::{MemberRow, TypeRow};
use dc_base::NoMemory;
use std::alloc::Global;

// The name of a member of a type of the references; none of a member without a name or of an own type.
fn name_in<'a>(
    types: &[TypeRow],
    members: &'a [MemberRow],
    nameless: &[bool],
    m: usize,
) -> Option<NameIn<'a>>
    requires long { length nameless.now ≡ length members.now }
    requires within { m < length members.now }
    ensures { IsNameIn types.now members.now nameless.now m result }
{
    let row = &members[m];
    if nameless[m] {
        return None;
    }
    if !is_reference(types, row.owner) {
        return None;
    }
    Some(NameIn {
        outer: row.owner.0,
        name: known_name(row),
    })
}

fn names_in<'a>(
    alloc: Global,
    types: &[TypeRow],
    members: &'a [MemberRow],
    nameless: &[bool],
) -> Result<Vec<Option<NameIn<'a>>>, NoMemory>
    requires long { length nameless.now ≡ length members.now }
    ensures { IfOk result (λ names. AreNamesIn types.now members.now nameless.now (length members.now) names.items) }
{
    let mut names = Vec::new(alloc);
    for m in 0..members.len() {
        names.push(name_in(types, members, nameless, m))?;
    }
    Ok(names)
}

// For each member the first one that goes by its name in its type.
fn first_named(
    alloc: Global,
    types: &[TypeRow],
    members: &[MemberRow],
    nameless: &[bool],
) -> Result<Vec<usize>, NoMemory>
    requires long { length nameless.now ≡ length members.now }
    ensures { IfOk result (λ firsts. AreFirstNamed types.now members.now nameless.now firsts.items) }
{
    let names = names_in(alloc, types, members, nameless)?;
    first_indices(alloc, names.as_slice())
}

fn is_odd(
    types: &[TypeRow],
    members: &[MemberRow],
    nameless: &[bool],
    m: usize,
    first: usize,
) -> bool
    requires long { length nameless.now ≡ length members.now }
    requires within { m < length members.now }
    requires first { first < length members.now }
    ensures yes { IsTrue result → IsOdd types.now members.now nameless.now m first }
    ensures no { IsOdd types.now members.now nameless.now m first → IsTrue result }
{
    if first == m || nameless[m] {
        return false;
    }
    let row = &members[m];
    is_reference(types, row.owner) && !may_share_name(row, &members[first])
}

fn least_of_firsts(
    types: &[TypeRow],
    members: &[MemberRow],
    nameless: &[bool],
    firsts: &[usize],
) -> Option<usize>
    requires long { length nameless.now ≡ length members.now }
    requires firsts { AreFirstNamed types.now members.now nameless.now firsts.now }
    ensures { IsLeastOf (IsFirstClash types.now members.now nameless.now) result }
{
    let mut least = None;
    for m in 0..members.len() {
        if is_odd(types, members, nameless, m, firsts[m]) {
            least = lesser(least, Some(firsts[m]));
        }
    }
    least
}

/// The least member of a type of the references that is the first to go by its name there, and whose name another one has
/// that may not share it.
pub fn least_odd(
    alloc: Global,
    types: &[TypeRow],
    members: &[MemberRow],
    nameless: &[bool],
) -> Result<Option<usize>, NoMemory>
    requires long { length nameless.now ≡ length members.now }
    ensures { IfOk result (IsLeastOf (IsFirstClash types.now members.now nameless.now)) }
{
    let firsts = first_named(alloc, types, members, nameless)?;
    Ok(least_of_firsts(types, members, nameless, firsts.as_slice()))
}
