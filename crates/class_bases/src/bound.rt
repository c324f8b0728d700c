// Whether each base and each interface that a type names is there and fits.

ghost use Rattle.std.specs.Prelude.{◌≡◌, ◌<◌, ◌^◌, length, false, IsTrue, IfOk, IfErr, Err};
ghost use Rattle.dc_causes.specs.Step.{Test};
ghost use Rattle.dc_causes.specs.Causes.{Rounds};
ghost use Rattle.class_keys.specs.Least.{IsLeastOff};
ghost use Rattle.class_rows.specs.declared.fault.TableFault.TheVariants.{MissingBase};
ghost use Rattle.class_rows.specs.Types.{HasType};
ghost use Rattle.class_rows.specs.Bases.{BasesFit, BasesAreThere};
ghost use Rattle.class_bases.specs.Fit.{BaseFits, InterfacesFit, RowFits, FitsAbove};

use crate::member::least_owner_of_missing;
use class_keys::lesser;
use class_rows::{Kind, MemberRow, TableFault, TypeRow};
use dc_base::TypeId;

fn may_be_base(types: &[TypeRow], b: TypeId) -> bool
    ensures yes { IsTrue result → HasType types.now b.0 (λ row. (row.kind ≡ Kind.Class) × (row.is_sealed ≡ false)) }
    ensures no { HasType types.now b.0 (λ row. (row.kind ≡ Kind.Class) × (row.is_sealed ≡ false)) → IsTrue result }
{
    match types.get(b.0 as usize) {
        Some(row) => matches!(row.kind, Kind::Class) && !row.is_sealed,
        None => false,
    }
}

fn is_interface(types: &[TypeRow], i: TypeId) -> bool
    ensures yes { IsTrue result → HasType types.now i.0 (λ row. row.kind ≡ Kind.Interface) }
    ensures no { HasType types.now i.0 (λ row. row.kind ≡ Kind.Interface) → IsTrue result }
{
    match types.get(i.0 as usize) {
        Some(row) => matches!(row.kind, Kind::Interface),
        None => false,
    }
}

fn base_fits(types: &[TypeRow], base: Option<TypeId>) -> bool
    ensures yes { IsTrue result → BaseFits types.now base }
    ensures no { BaseFits types.now base → IsTrue result }
{
    match base {
        Some(b) => may_be_base(types, b),
        None => true,
    }
}

fn interfaces_fit(types: &[TypeRow], named: &[TypeId]) -> bool
    ensures yes { IsTrue result → InterfacesFit types.now named.now }
    ensures no { InterfacesFit types.now named.now → IsTrue result }
{
    for interface in named {
        if !is_interface(types, *interface) {
            return false;
        }
    }
    true
}

fn row_fits(types: &[TypeRow], row: &TypeRow) -> bool
    ensures yes { IsTrue result → RowFits types.now row.now }
    ensures no { RowFits types.now row.now → IsTrue result }
{
    base_fits(types, row.base) && interfaces_fit(types, row.bases.items())
}

fn least_unfit(types: &[TypeRow]) -> Option<usize>
    ensures { IsLeastOff (FitsAbove types.now) result }
{
    for (index, row) in types.iter().enumerate() {
        if !row_fits(types, row) {
            return Some(index);
        }
    }
    None
}

/// Whether each type's base is a class that is there and not sealed, what it names as interfaces are interfaces that are
/// there, and what the members of a type of the references name is there; else the fault names the least type of which
/// this doesn't hold. It takes the time of one look at each name.
pub fn bases_are_there(types: &[TypeRow], members: &[MemberRow]) -> Result<(), TableFault>
    requires { length types.now < 2 ^ 32 }
    ensures there { IfOk result (λ _. BasesAreThere types.now members.now) }
    ensures missing { IfErr result (λ fault. Rounds (λ t. Test (BasesFit types.now members.now t) (MissingBase (record { 0 = t }))) (Err fault)) }
{
    match lesser(least_unfit(types), least_owner_of_missing(types, members)) {
        None => Ok(()),
        Some(t) => Err(TableFault::MissingBase(TypeId(t as u32))),
    }
}
