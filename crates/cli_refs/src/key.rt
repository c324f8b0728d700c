// What a reference to a member and a member have in common.

ghost use Rattle.std.specs.Prelude.{◌≡◌, IfOk, length, map};
ghost use Rattle.class_rows.specs.Members.{types_of};
ghost use Rattle.cli_refs.specs.Sought.{called, shape_of};
ghost use Rattle.cli_refs.specs.Keys.{IsKey, IsKeySought, AreMemberKeys, AreKeys};

use class_rows::{MemberRow, Sort};
use dc_base::{NoMemory, Seq, Ty, TypeId};
use std::alloc::Global;

/// A field, or how a method is called. A reference to a field doesn't say whether it is static.
#[derive(Clone, Copy, Debug, PartialEq, Eq, Hash)]
pub enum Shape {
    Field,
    Static,
    Instance,
}

/// What a reference to a member says: the type in which the member is looked for first, its name, and its signature. The result
/// of a field is its type.
#[derive(Clone, Copy, Debug)]
pub struct Sought<'a> {
    pub parent: TypeId,
    pub name: &'a [u8],
    pub shape: Shape,
    pub params: &'a [Ty],
    pub result: Ty,
}

/// The same without the type.
#[derive(Clone, Copy, Debug, PartialEq, Eq, Hash)]
pub struct Key<'a> {
    pub name: &'a [u8],
    pub shape: Shape,
    pub params: &'a [Ty],
    pub result: Ty,
}

/// What a member is to those who refer to it.
pub fn shape_of(row: &MemberRow) -> Shape
    ensures { result ≡ shape_of row.now }
{
    match row.kind.sort() {
        Sort::Field => Shape::Field,
        Sort::Method => called(row.is_static),
        Sort::Constructor => called(row.is_static),
        Sort::Getter => called(row.is_static),
        Sort::Setter => called(row.is_static),
        Sort::Indexer => called(row.is_static),
        Sort::Operator => called(row.is_static),
    }
}

fn called(is_static: bool) -> Shape
    ensures { result ≡ called is_static }
{
    if is_static {
        Shape::Static
    } else {
        Shape::Instance
    }
}

/// The keys of the members, and behind them those of the references.
pub fn keys_of<'k, 'a>(
    alloc: Global,
    members: &'k [MemberRow],
    params: &'k [Seq<Ty>],
    sought: &'k [Sought<'a>],
) -> Result<Vec<Key<'k>>, NoMemory>
    requires { params.now ≡ map types_of members.now }
    ensures { IfOk result (λ keys. AreKeys members.now sought.now (length sought.now) keys.items) }
{
    let mut keys = member_keys(alloc, members, params)?;
    for q in 0..sought.len() {
        keys.push(key_sought(&sought[q]))?;
    }
    Ok(keys)
}

fn member_keys<'a>(
    alloc: Global,
    members: &'a [MemberRow],
    params: &'a [Seq<Ty>],
) -> Result<Vec<Key<'a>>, NoMemory>
    requires { params.now ≡ map types_of members.now }
    ensures { IfOk result (λ keys. AreMemberKeys members.now (length members.now) keys.items) }
{
    let mut keys = Vec::new(alloc);
    for m in 0..members.len() {
        keys.push(key_of(&members[m], params[m].items()))?;
    }
    Ok(keys)
}

fn key_of<'a>(row: &'a MemberRow, params: &'a [Ty]) -> Key<'a>
    requires { params.now ≡ types_of row.now }
    ensures { IsKey row.now result }
{
    Key {
        name: row.name.as_str().as_bytes(),
        shape: shape_of(row),
        params,
        result: row.result,
    }
}

fn key_sought<'k, 'a>(sought: &'k Sought<'a>) -> Key<'k>
    ensures { IsKeySought sought.now result }
{
    Key {
        name: sought.name,
        shape: sought.shape,
        params: sought.params,
        result: sought.result,
    }
}
