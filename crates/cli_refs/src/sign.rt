// One number for each member and each reference that have one key.

ghost use Rattle.std.specs.Prelude.{◌≡◌, map, IfOk};
ghost use Rattle.class_rows.specs.Members.{types_of};
ghost use Rattle.cli_refs.specs.Signs.{AreSigns};

use crate::key::{Sought, keys_of};
use class_keys::first_indices;
use class_rows::{MemberRow, Param};
use dc_base::{NoMemory, Seq, Ty};
use std::alloc::Global;

/// A number for each member, and behind these one for each reference, which is that of a member where the reference says what
/// the member is. It takes the time of one look-up in a table of hashes for each.
pub fn signs_of(
    alloc: Global,
    members: &[MemberRow],
    sought: &[Sought<'_>],
) -> Result<Vec<usize>, NoMemory>
    ensures { IfOk result (λ signs. AreSigns members.now sought.now signs.items) }
{
    let params = all_types(alloc, members)?;
    let keys = keys_of(alloc, members, params.as_slice(), sought)?;
    first_indices(alloc, keys.as_slice())
}

fn all_types(alloc: Global, members: &[MemberRow]) -> Result<Vec<Seq<Ty>>, NoMemory>
    ensures { IfOk result (λ types. types.items ≡ map types_of members.now) }
{
    let mut types = Vec::new(alloc);
    for row in members {
        types.push(types_told(alloc, row)?)?;
    }
    Ok(types)
}

fn types_told(alloc: Global, row: &MemberRow) -> Result<Seq<Ty>, NoMemory>
    ensures { IfOk result (λ types. types ≡ types_of row.now) }
{
    types_in(alloc, row.params.items())
}

fn types_in(alloc: Global, params: &[Param]) -> Result<Seq<Ty>, NoMemory>
    ensures { IfOk result (λ types. types ≡ map (λ p. p.ty) params.now) }
{
    let mut types = Vec::new(alloc);
    for param in params {
        types.push(param.ty)?;
    }
    Ok(Seq::of(types))
}
