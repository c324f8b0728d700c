// What no two members may share.

ghost use Rattle.std.specs.Prelude.{◌≡◌, ◌<◌, ◌^◌, map, length, IfOk};
ghost use Rattle.class_keys.specs.Least.{IsLeastOf};
ghost use Rattle.class_members.specs.Twins.{told_types, HasTwin};
ghost use Rattle.class_members.specs.Signs.{IsSignature, IsOverload, IsSign, AreSigns};

use crate::pair::is_overloaded;
use crate::reference::is_reference;
use class_index::known_name;
use class_keys::least_shared_key;
use class_rows::{MemberRow, Param, Sort, TypeRow};
use dc_base::{NoMemory, Seq, Ty};
use std::alloc::Global;

/// In what two members of an own type agree.
#[derive(Clone, Copy, Debug, PartialEq, Eq, Hash)]
pub struct Signature<'a> {
    pub owner: u32,
    pub name: &'a [u8],
    pub sort: Sort,
    pub params: &'a [Param],
    pub result: Ty,
}

/// What tells a member of a type of the references from others of its sort: the name that C# knows it by, and where the
/// sort is overloaded the types of its parameters.
#[derive(Clone, Copy, Debug, PartialEq, Eq, Hash)]
pub struct Overload<'a> {
    pub owner: u32,
    pub name: &'a [u8],
    pub sort: Sort,
    pub types: &'a [Ty],
}

/// What no two members may share. A member without a name shares with none: its number stands for it.
#[derive(Clone, Copy, Debug, PartialEq, Eq, Hash)]
pub enum Sign<'a> {
    Nameless(u32),
    Own(Signature<'a>),
    Reference(Overload<'a>),
}

// The types of the parameters, where they tell members of one name apart.
fn types_told(alloc: Global, row: &MemberRow) -> Result<Seq<Ty>, NoMemory>
    ensures { IfOk result (λ types. types ≡ told_types row.now) }
{
    if is_overloaded(row.kind.sort()) {
        types_in(alloc, row.params.items())
    } else {
        Ok(Seq::of(Vec::new(alloc)))
    }
}

fn types_in(alloc: Global, params: &[Param]) -> Result<Seq<Ty>, NoMemory>
    ensures { IfOk result (λ types. types ≡ map (λ p. p.ty) params.now) }
{
    let mut types = Vec::new(alloc);
    for param in params {
        types.push(param.ty)?;
    }
    Ok(Seq::of(types))
}

fn all_told(alloc: Global, members: &[MemberRow]) -> Result<Vec<Seq<Ty>>, NoMemory>
    ensures { IfOk result (λ told. told.items ≡ map told_types members.now) }
{
    let mut told = Vec::new(alloc);
    for row in members {
        told.push(types_told(alloc, row)?)?;
    }
    Ok(told)
}

fn signature_of(row: &MemberRow) -> Signature<'_>
    ensures { IsSignature row.now result }
{
    Signature {
        owner: row.owner.0,
        name: row.name.as_str().as_bytes(),
        sort: row.kind.sort(),
        params: row.params.items(),
        result: row.result,
    }
}

fn overload_of<'a>(row: &'a MemberRow, told: &'a [Ty]) -> Overload<'a>
    requires { told.now ≡ told_types row.now }
    ensures { IsOverload row.now result }
{
    Overload {
        owner: row.owner.0,
        name: known_name(row),
        sort: row.kind.sort(),
        types: told,
    }
}

fn sign_of<'a>(
    types: &[TypeRow],
    members: &'a [MemberRow],
    nameless: &[bool],
    told: &'a [Seq<Ty>],
    m: usize,
) -> Sign<'a>
    requires many { length members.now < 2 ^ 32 }
    requires long { length nameless.now ≡ length members.now }
    requires told { told.now ≡ map told_types members.now }
    requires within { m < length members.now }
    ensures { IsSign types.now members.now nameless.now m result }
{
    let row = &members[m];
    if nameless[m] {
        Sign::Nameless(m as u32)
    } else if is_reference(types, row.owner) {
        Sign::Reference(overload_of(row, told[m].items()))
    } else {
        Sign::Own(signature_of(row))
    }
}

fn all_signs<'a>(
    alloc: Global,
    types: &[TypeRow],
    members: &'a [MemberRow],
    nameless: &[bool],
    told: &'a [Seq<Ty>],
) -> Result<Vec<Sign<'a>>, NoMemory>
    requires many { length members.now < 2 ^ 32 }
    requires long { length nameless.now ≡ length members.now }
    requires told { told.now ≡ map told_types members.now }
    ensures { IfOk result (λ signs. AreSigns types.now members.now nameless.now (length members.now) signs.items) }
{
    let mut signs = Vec::new(alloc);
    for m in 0..members.len() {
        signs.push(sign_of(types, members, nameless, told, m))?;
    }
    Ok(signs)
}

/// The least member that another can't be told from: in an own type it agrees with it, in a type of the references it has
/// one name and sort with it, and where the sort is overloaded the same types of parameters.
pub fn least_twin(
    alloc: Global,
    types: &[TypeRow],
    members: &[MemberRow],
    nameless: &[bool],
) -> Result<Option<usize>, NoMemory>
    requires many { length members.now < 2 ^ 32 }
    requires long { length nameless.now ≡ length members.now }
    ensures { IfOk result (IsLeastOf (HasTwin types.now members.now nameless.now)) }
{
    let told = all_told(alloc, members)?;
    let signs = all_signs(alloc, types, members, nameless, told.as_slice())?;
    least_shared_key(alloc, signs.as_slice())
}
