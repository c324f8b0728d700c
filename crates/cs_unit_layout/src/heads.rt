// What members begin with: modifiers, types, names and parameters.

ghost use Rattle.std.specs.Prelude.{◌≡◌, ◌++◌, OnOk};
ghost use Rattle.std.specs.String.{string_bytes};
ghost use Rattle.cs_layout.specs.Pieces.{followed};
ghost use Rattle.cs_unit_layout.specs.Heads.{access_pieces, flag_pieces, mods_pieces, result_pieces, explicit_pieces, params_pieces};
ghost use Rattle.cs_unit_layout.specs.Members.{method_head, maker_head, initializer_head, property_head, indexer_head, operator_head};

use crate::headwords::{Headword, write_headword};
use cs_layout::{Fixed, write_fixed, write_name, write_params, write_path, write_type};
use cs_lines::write_typed;
use cs_tree::{Access, Explicit, Mods, Name, Param, TypeForm};
use dc_base::NoMemory;

#[tactic(auto, using(cs_layout::proofs::Following::followed_nothing))]
fn write_access(out: &mut String, access: Option<Access>) -> Result<(), NoMemory>
    ensures { OnOk result (string_bytes out.new ≡ followed (string_bytes out.old) (access_pieces access)) }
{
    match access {
        None => Ok(()),
        Some(Access::Public) => write_headword(out, Headword::Public),
        Some(Access::Private) => write_headword(out, Headword::Private),
        Some(Access::Protected) => write_headword(out, Headword::Protected),
        Some(Access::Internal) => write_headword(out, Headword::Internal),
        Some(Access::ProtectedOrInternal) => write_headword(out, Headword::ProtectedOrInternal),
        Some(Access::ProtectedAndInternal) => write_headword(out, Headword::ProtectedAndInternal),
    }
}

/// Writes a word, or nothing.
#[tactic(auto, using(cs_layout::proofs::Following::followed_nothing))]
pub fn write_flag(out: &mut String, stands: bool, word: Headword) -> Result<(), NoMemory>
    ensures { OnOk result (string_bytes out.new ≡ followed (string_bytes out.old) (flag_pieces stands word)) }
{
    if !stands {
        return Ok(());
    }
    write_headword(out, word)
}

/// Writes modifiers, each with a blank behind it.
#[tactic(auto, using(cs_layout::proofs::Following::followed_append))]
pub fn write_mods(out: &mut String, mods: Mods) -> Result<(), NoMemory>
    ensures { OnOk result (string_bytes out.new ≡ followed (string_bytes out.old) (mods_pieces mods)) }
{
    write_access(out, mods.access)?;
    write_flag(out, mods.is_static, Headword::Static)?;
    write_flag(out, mods.is_abstract, Headword::Abstract)?;
    write_flag(out, mods.is_sealed, Headword::Sealed)?;
    write_flag(out, mods.is_virtual, Headword::Virtual)?;
    write_flag(out, mods.is_override, Headword::Override)?;
    write_flag(out, mods.is_readonly, Headword::Readonly)?;
    write_flag(out, mods.is_extern, Headword::Extern)?;
    Ok(())
}

/// Writes a type or `void`, and a blank.
#[tactic(auto, using(cs_layout::proofs::Following::followed_append))]
pub fn write_result(out: &mut String, ty: &Option<TypeForm>) -> Result<(), NoMemory>
    ensures { OnOk result (string_bytes out.new ≡ followed (string_bytes out.old) (result_pieces ty.now)) }
{
    match ty {
        None => write_headword(out, Headword::Void),
        Some(ty) => {
            write_type(out, ty)?;
            write_fixed(out, Fixed::Blank)
        }
    }
}

#[tactic(auto, using(cs_layout::proofs::Following::followed_append, cs_layout::proofs::Following::followed_nothing))]
fn write_explicit(out: &mut String, explicit: &Option<Explicit>) -> Result<(), NoMemory>
    ensures { OnOk result (string_bytes out.new ≡ followed (string_bytes out.old) (explicit_pieces explicit.now)) }
{
    match explicit {
        None => Ok(()),
        Some(explicit) => {
            write_fixed(out, Fixed::Global)?;
            write_path(out, explicit.path.items())?;
            write_fixed(out, Fixed::Dot)
        }
    }
}

/// Writes parameters in parentheses.
#[tactic(auto, using(cs_layout::proofs::Following::followed_append))]
pub fn write_enclosed_params(out: &mut String, params: &[Param]) -> Result<(), NoMemory>
    ensures { OnOk result (string_bytes out.new ≡ followed (string_bytes out.old) (params_pieces params.now)) }
{
    write_fixed(out, Fixed::Open)?;
    write_params(out, params)?;
    write_fixed(out, Fixed::Close)
}

/// Writes what a method begins with: `public int M(int a)`
#[tactic(auto, using(cs_layout::proofs::Following::followed_append))]
pub fn write_method_head(
    out: &mut String,
    mods: Mods,
    ty: &Option<TypeForm>,
    explicit: &Option<Explicit>,
    name: &Name,
    params: &[Param],
) -> Result<(), NoMemory>
    ensures { OnOk result (string_bytes out.new ≡ followed (string_bytes out.old) (method_head mods ty.now explicit.now name.now params.now)) }
{
    write_mods(out, mods)?;
    write_result(out, ty)?;
    write_explicit(out, explicit)?;
    write_name(out, &name.text)?;
    write_enclosed_params(out, params)?;
    Ok(())
}

/// Writes what a constructor begins with: `public A(int a)`
#[tactic(auto, using(cs_layout::proofs::Following::followed_append))]
pub fn write_maker_head(
    out: &mut String,
    mods: Mods,
    name: &Name,
    params: &[Param],
) -> Result<(), NoMemory>
    ensures { OnOk result (string_bytes out.new ≡ followed (string_bytes out.old) (maker_head mods name.now params.now)) }
{
    write_mods(out, mods)?;
    write_name(out, &name.text)?;
    write_enclosed_params(out, params)?;
    Ok(())
}

/// Writes what a type initializer begins with: `static A()`
#[tactic(auto, using(cs_layout::proofs::Following::followed_append))]
pub fn write_initializer_head(out: &mut String, name: &Name) -> Result<(), NoMemory>
    ensures { OnOk result (string_bytes out.new ≡ followed (string_bytes out.old) (initializer_head name.now)) }
{
    write_headword(out, Headword::Static)?;
    write_name(out, &name.text)?;
    write_fixed(out, Fixed::Open)?;
    write_fixed(out, Fixed::Close)?;
    Ok(())
}

/// Writes what a property begins with: `public int P`
#[tactic(auto, using(cs_layout::proofs::Following::followed_append))]
pub fn write_property_head(
    out: &mut String,
    mods: Mods,
    ty: &TypeForm,
    name: &Name,
) -> Result<(), NoMemory>
    ensures { OnOk result (string_bytes out.new ≡ followed (string_bytes out.old) (property_head mods ty.now name.now)) }
{
    write_mods(out, mods)?;
    write_typed(out, ty, name)?;
    Ok(())
}

/// Writes what an indexer begins with: `public indexer int Item[int i]`
#[tactic(auto, using(cs_layout::proofs::Following::followed_append))]
pub fn write_indexer_head(
    out: &mut String,
    mods: Mods,
    ty: &TypeForm,
    name: &Name,
    index_ty: &TypeForm,
    index: &Name,
) -> Result<(), NoMemory>
    ensures { OnOk result (string_bytes out.new ≡ followed (string_bytes out.old) (indexer_head mods ty.now name.now index_ty.now index.now)) }
{
    write_mods(out, mods)?;
    write_headword(out, Headword::Indexer)?;
    write_typed(out, ty, name)?;
    write_fixed(out, Fixed::OpenIndex)?;
    write_typed(out, index_ty, index)?;
    write_fixed(out, Fixed::CloseIndex)?;
    Ok(())
}

/// Writes what an operator begins with: `operator bool op_Equality(int a, int b)`
#[tactic(auto, using(cs_layout::proofs::Following::followed_append))]
pub fn write_operator_head(
    out: &mut String,
    ty: &TypeForm,
    name: &Name,
    params: &[Param],
) -> Result<(), NoMemory>
    ensures { OnOk result (string_bytes out.new ≡ followed (string_bytes out.old) (operator_head ty.now name.now params.now)) }
{
    write_headword(out, Headword::Operator)?;
    write_typed(out, ty, name)?;
    write_enclosed_params(out, params)?;
    Ok(())
}
