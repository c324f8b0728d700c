// Whether the types that members of the references name are there.

ghost use Rattle.std.specs.Prelude.{◌<◌, ℕ, length, false, IsTrue};
ghost use Rattle.class_keys.specs.Least.{IsLeastOff};
ghost use Rattle.class_rows.specs.Names.{IsReference};
ghost use Rattle.class_bases.specs.Fit.{TyIsThere, ParamsAreThere, MemberIsThere, MembersFit, IsBrokenOwner};

use class_keys::lesser;
use class_rows::{MemberRow, Param, TypeRow};
use dc_base::{Core, Ty, TypeId};

fn ty_is_there(types: &[TypeRow], ty: Ty) -> bool
    ensures yes { IsTrue result → TyIsThere types.now ty }
    ensures no { TyIsThere types.now ty → IsTrue result }
{
    match ty.core {
        Core::Void => true,
        Core::Prim(_) => true,
        Core::Class(t) => (t.0 as usize) < types.len(),
        Core::Value(t) => (t.0 as usize) < types.len(),
        Core::Enum(t) => (t.0 as usize) < types.len(),
    }
}

fn params_are_there(types: &[TypeRow], params: &[Param]) -> bool
    ensures yes { IsTrue result → ParamsAreThere types.now params.now }
    ensures no { ParamsAreThere types.now params.now → IsTrue result }
{
    for param in params {
        if !ty_is_there(types, param.ty) {
            return false;
        }
    }
    true
}

fn is_there(types: &[TypeRow], row: &MemberRow) -> bool
    ensures yes { IsTrue result → MemberIsThere types.now row.now }
    ensures no { MemberIsThere types.now row.now → IsTrue result }
{
    ty_is_there(types, row.result) && params_are_there(types, row.params.items())
}

fn is_reference(types: &[TypeRow], t: TypeId) -> bool
    ensures yes { IsTrue result → IsReference types.now t.0 }
    ensures no { IsReference types.now t.0 → IsTrue result }
{
    match types.get(t.0 as usize) {
        Some(row) => !row.own,
        None => false,
    }
}

// The owner of a member of the references that names a type which isn't there.
fn broken_owner(types: &[TypeRow], row: &MemberRow) -> Option<usize>
    ensures { IsBrokenOwner types.now row.now result }
{
    if is_reference(types, row.owner) && !is_there(types, row) {
        Some(row.owner.0 as usize)
    } else {
        None
    }
}

/// The least type of the references that has such a member.
pub fn least_owner_of_missing(types: &[TypeRow], members: &[MemberRow]) -> Option<usize>
    ensures { IsLeastOff (MembersFit types.now members.now) result }
{
    let mut least = None;
    for row in members {
        least = lesser(least, broken_owner(types, row));
    }
    least
}
