// One number for members alike.

ghost use Rattle.std.specs.Prelude.{◌≡◌, map, length, IfOk};
ghost use Rattle.class_rows.specs.Members.{types_of};
ghost use Rattle.class_open.specs.Signs.{AreSigns, AreKeys, IsKey};

use class_keys::first_indices;
use class_rows::{MemberRow, Param, Sort};
use dc_base::{NoMemory, Seq, Ty};
use std::alloc::Global;

/// In what all members alike agree.
#[derive(Clone, Copy, Debug, PartialEq, Eq, Hash)]
pub struct Key<'a> {
    pub name: &'a [u8],
    pub sort: Sort,
    pub types: &'a [Ty],
    pub result: Ty,
}

/// A number for each member, which members alike have in common: the first member that agrees with it in name, kind and
/// result, and in the types of its parameters. It takes the time of one look-up in a table of hashes for each member.
pub fn signs_of(alloc: Global, members: &[MemberRow]) -> Result<Vec<usize>, NoMemory>
    ensures { IfOk result (λ signs. AreSigns members.now signs.items) }
{
    let types = all_types(alloc, members)?;
    let keys = all_keys(alloc, members, types.as_slice())?;
    first_indices(alloc, keys.as_slice())
}

fn all_keys<'a>(
    alloc: Global,
    members: &'a [MemberRow],
    types: &'a [Seq<Ty>],
) -> Result<Vec<Key<'a>>, NoMemory>
    requires { types.now ≡ map types_of members.now }
    ensures { IfOk result (λ keys. AreKeys members.now (length members.now) keys.items) }
{
    let mut keys = Vec::new(alloc);
    for m in 0..members.len() {
        keys.push(key_of(&members[m], types[m].items()))?;
    }
    Ok(keys)
}

fn key_of<'a>(row: &'a MemberRow, types: &'a [Ty]) -> Key<'a>
    requires { types.now ≡ types_of row.now }
    ensures { IsKey row.now result }
{
    Key {
        name: row.name.as_str().as_bytes(),
        sort: row.kind.sort(),
        types,
        result: row.result,
    }
}

fn all_types(alloc: Global, members: &[MemberRow]) -> Result<Vec<Seq<Ty>>, NoMemory>
    ensures { IfOk result (λ types. types.items ≡ map types_of members.now) }
{
    let mut types = Vec::new(alloc);
    for row in members {
        types.push(types_told(alloc, row)?)?;
    }
    Ok(types)
}

fn types_told(alloc: Global, row: &MemberRow) -> Result<Seq<Ty>, NoMemory>
    ensures { IfOk result (λ types. types ≡ types_of row.now) }
{
    types_in(alloc, row.params.items())
}

fn types_in(alloc: Global, params: &[Param]) -> Result<Seq<Ty>, NoMemory>
    ensures { IfOk result (λ types. types ≡ map (λ p. p.ty) params.now) }
{
    let mut types = Vec::new(alloc);
    for param in params {
        types.push(param.ty)?;
    }
    Ok(Seq::of(types))
}
