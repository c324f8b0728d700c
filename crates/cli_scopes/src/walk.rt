// A walk from each row to the rows that it stands in.

ghost use Rattle.std.specs.Prelude.{◌≡◌, ◌<◌, ◌^◌, IfOk, length, map};
ghost use Rattle.cli_scopes.specs.Meant.{AreMeant};
ghost use Rattle.cli_scopes.specs.Walk.{known_of, is_new_at, first_in, answer, new_above, IsBetween, IsSettled};

use crate::name::Index;
use crate::{Scope, TypeName, TypeRef, Within};
use dc_base::{NoMemory, Stack, TypeId};
use std::alloc::Global;

/// What the walks so far have found of a row.
#[derive(Clone, Copy, Debug)]
pub enum Mark {
    New,
    Walked,
    Known(Option<TypeId>),
}

/// For each row of TypeRef the type that it means among types of these names, the first where several have one name, and none
/// where it means none. It takes the time of one look-up in a table of hashes for each row, and for each name.
pub fn types_meant(
    alloc: Global,
    names: &[TypeName<'_>],
    refs: &[TypeRef<'_>],
) -> Result<Vec<Option<TypeId>>, NoMemory>
    requires few { length names.now < 2 ^ 32 }
    ensures { IfOk result (λ types. AreMeant names.now refs.now types.items) }
{
    let index = Index::of(alloc, names)?;
    meant_by(alloc, &index, refs)
}

fn meant_by(
    alloc: Global,
    index: &Index<'_>,
    refs: &[TypeRef<'_>],
) -> Result<Vec<Option<TypeId>>, NoMemory>
    ensures { IfOk result (λ types. AreMeant index.now refs.now types.items) }
{
    let mut table = vec![in alloc; Mark::New; refs.len()]?;
    let marks = table.as_mut_slice();
    for root in 0..refs.len() {
        settle(alloc, index, refs, marks, root)?;
    }
    known(alloc, marks)
}

// What is known of each row.
fn known(alloc: Global, marks: &[Mark]) -> Result<Vec<Option<TypeId>>, NoMemory>
    ensures { IfOk result (λ types. types.items ≡ map known_of marks.now) }
{
    let mut types = Vec::new(alloc);
    for mark in marks {
        types.push(known_of(*mark))?;
    }
    Ok(types)
}

fn known_of(mark: Mark) -> Option<TypeId>
    ensures { result ≡ known_of mark }
{
    match mark {
        Mark::Known(found) => found,
        _ => None,
    }
}

// Settles a row, and those that it stands in.
fn settle(
    alloc: Global,
    index: &Index<'_>,
    refs: &[TypeRef<'_>],
    marks: &mut [Mark],
    root: usize,
) -> Result<(), NoMemory>
    requires between { IsBetween index.now refs.now marks.old }
    requires within { root < length refs.now }
    ensures { IfOk result (λ _. IsSettled index.now refs.now root marks.old marks.new) }
{
    if !is_new(marks, root) {
        return Ok(());
    }
    let mut stack = Stack::new(alloc);
    marks[root] = Mark::Walked;
    stack.push(root)?;
    while let Some(at) = stack.pop() {
        match new_above(refs, marks, at) {
            Some(above) => {
                marks[above] = Mark::Walked;
                stack.push(at)?;
                stack.push(above)?;
            }
            None => marks[at] = Mark::Known(answer(index, refs, marks, at)),
        }
    }
    Ok(())
}

fn is_new(marks: &[Mark], k: usize) -> bool
    ensures { result ≡ is_new_at marks.now k }
{
    match marks.get(k) {
        Some(Mark::New) => true,
        _ => false,
    }
}

// The row that a row stands in, where no walk has met it.
fn new_above(refs: &[TypeRef<'_>], marks: &[Mark], at: usize) -> Option<usize>
    ensures { result ≡ new_above refs.now marks.now at }
{
    match refs.get(at)?.scope {
        Scope::InRef(above) if is_new(marks, above as usize) => Some(above as usize),
        _ => None,
    }
}

// The type that a row means, by what is known of the row that it stands in.
fn answer(index: &Index<'_>, refs: &[TypeRef<'_>], marks: &[Mark], at: usize) -> Option<TypeId>
    ensures { result ≡ answer index.now refs.now marks.now at }
{
    let row = refs.get(at)?;
    match row.scope {
        Scope::References => first_in(index, Within::References, row),
        Scope::Own => first_in(index, Within::Own, row),
        Scope::InRef(above) => {
            let outer = known_of(*marks.get(above as usize)?)?;
            first_in(index, Within::InType(outer), row)
        }
        Scope::Nowhere => None,
    }
}

fn first_in(index: &Index<'_>, within: Within, row: &TypeRef<'_>) -> Option<TypeId>
    ensures { result ≡ first_in index.now within row.now }
{
    let name = TypeName {
        within,
        space: row.space,
        name: row.name,
    };
    Some(TypeId(index.first(name)?))
}
