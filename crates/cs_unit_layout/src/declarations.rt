// What types and namespaces begin with, and the constants of enums.

ghost use Rattle.std.specs.Prelude.{◌≡◌, ◌++◌, OnOk, map};
ghost use Rattle.std.specs.String.{string_bytes};
ghost use Rattle.cs_layout.specs.Pieces.{followed};
ghost use Rattle.cs_layout.specs.Words.{listed, number as number_pieces, path as path_pieces, type_pieces};
ghost use Rattle.cs_token.specs.declared.lexeme.Suffix.TheVariants.{Plain};
ghost use Rattle.cs_unit_layout.specs.Heads.{kind_pieces, bases_pieces, headword};
ghost use Rattle.cs_unit_layout.specs.Units.{body_head, enum_head, delegate_head, each, enumerator_laid};
ghost use Rattle.cs_unit_layout.specs.declared.headwords.Headword.TheVariants.{Namespace as NamespaceWord};

use crate::heads::{write_enclosed_params, write_flag, write_mods, write_result};
use crate::headwords::{Headword, write_headword};
use cs_layout::{Fixed, write_comma, write_fixed, write_name, write_path, write_type};
use cs_lines::write_indent;
use cs_token::Suffix;
use cs_tree::{Enumerator, Kind, Mods, Name, Param, Path, TypeForm};
use dc_base::NoMemory;

fn write_kind(out: &mut String, kind: Kind) -> Result<(), NoMemory>
    ensures { OnOk result (string_bytes out.new ≡ followed (string_bytes out.old) (kind_pieces kind)) }
{
    match kind {
        Kind::Class => write_headword(out, Headword::Class),
        Kind::Interface => write_headword(out, Headword::Interface),
        Kind::Struct => write_headword(out, Headword::Struct),
    }
}

/// Types with commas between them.
#[tactic(auto, using(cs_layout::proofs::Following::followed_nothing))]
fn write_types(out: &mut String, types: &[TypeForm]) -> Result<(), NoMemory>
    ensures { OnOk result (string_bytes out.new ≡ followed (string_bytes out.old) (listed (map type_pieces types.now))) }
{
    for (index, ty) in types.iter().enumerate() {
        write_comma(out, index)?;
        write_type(out, ty)?;
    }
    Ok(())
}

#[tactic(auto, using(cs_layout::proofs::Following::followed_append, cs_layout::proofs::Following::followed_nothing))]
fn write_bases(out: &mut String, bases: &[TypeForm]) -> Result<(), NoMemory>
    ensures { OnOk result (string_bytes out.new ≡ followed (string_bytes out.old) (bases_pieces bases.now)) }
{
    if bases.is_empty() {
        return Ok(());
    }
    write_fixed(out, Fixed::Otherwise)?;
    write_types(out, bases)
}

/// Writes what a type with a body of members begins with: `public class A : global::B`
#[tactic(auto, using(cs_layout::proofs::Following::followed_append))]
pub fn write_body_head(
    out: &mut String,
    mods: Mods,
    kind: Kind,
    name: &Name,
    bases: &[TypeForm],
) -> Result<(), NoMemory>
    ensures { OnOk result (string_bytes out.new ≡ followed (string_bytes out.old) (body_head mods kind name.now bases.now)) }
{
    write_mods(out, mods)?;
    write_kind(out, kind)?;
    write_name(out, &name.text)?;
    write_bases(out, bases)?;
    Ok(())
}

/// Writes what an enum begins with: `public enum E : int`
#[tactic(auto, using(cs_layout::proofs::Following::followed_append))]
pub fn write_enum_head(
    out: &mut String,
    mods: Mods,
    name: &Name,
    ty: &TypeForm,
) -> Result<(), NoMemory>
    ensures { OnOk result (string_bytes out.new ≡ followed (string_bytes out.old) (enum_head mods name.now ty.now)) }
{
    write_mods(out, mods)?;
    write_headword(out, Headword::Enum)?;
    write_name(out, &name.text)?;
    write_fixed(out, Fixed::Otherwise)?;
    write_type(out, ty)?;
    Ok(())
}

/// Writes a delegate type: `public delegate int D(int a);`
#[tactic(auto, using(cs_layout::proofs::Following::followed_append))]
pub fn write_delegate_head(
    out: &mut String,
    mods: Mods,
    ty: &Option<TypeForm>,
    name: &Name,
    params: &[Param],
) -> Result<(), NoMemory>
    ensures { OnOk result (string_bytes out.new ≡ followed (string_bytes out.old) (delegate_head mods ty.now name.now params.now)) }
{
    write_mods(out, mods)?;
    write_headword(out, Headword::Delegate)?;
    write_result(out, ty)?;
    write_name(out, &name.text)?;
    write_enclosed_params(out, params)?;
    write_fixed(out, Fixed::Semicolon)?;
    Ok(())
}

/// Writes what a namespace begins with: `namespace A.B`
#[tactic(auto, using(cs_layout::proofs::Following::followed_append))]
pub fn write_namespace_head(out: &mut String, path: &Path) -> Result<(), NoMemory>
    ensures { OnOk result (string_bytes out.new ≡ followed (string_bytes out.old) (headword NamespaceWord ++ path_pieces path.now.names)) }
{
    write_headword(out, Headword::Namespace)?;
    write_path(out, path.names.items())?;
    Ok(())
}

#[tactic(auto, unfolding(cs_layout::specs::Pieces::followed, cs_layout::specs::Words::number))]
fn write_value(out: &mut String, value: u64) -> Result<(), NoMemory>
    ensures { OnOk result (string_bytes out.new ≡ followed (string_bytes out.old) (number_pieces value Plain)) }
{
    cs_written::write_number(out, value, Suffix::Plain)
}

#[tactic(auto, using(cs_layout::proofs::Following::followed_append))]
fn write_enumerator(out: &mut String, item: &Enumerator, margin: &str) -> Result<(), NoMemory>
    ensures { OnOk result (string_bytes out.new ≡ followed (string_bytes out.old) (enumerator_laid item.now margin.now)) }
{
    write_indent(out, margin)?;
    write_name(out, &item.name.text)?;
    write_fixed(out, Fixed::Equals)?;
    write_flag(out, item.negative, Headword::Minus)?;
    write_value(out, item.value)?;
    write_headword(out, Headword::ItemEnd)?;
    write_fixed(out, Fixed::Newline)?;
    Ok(())
}

/// Writes the constants of an enum, each on a line.
#[tactic(auto, using(cs_layout::proofs::Following::followed_nothing))]
pub fn write_enumerators(
    out: &mut String,
    enumerators: &[Enumerator],
    margin: &str,
) -> Result<(), NoMemory>
    ensures { OnOk result (string_bytes out.new ≡ followed (string_bytes out.old) (each (map enumerator_laid enumerators.now) margin.now)) }
{
    for item in enumerators {
        write_enumerator(out, item, margin)?;
    }
    Ok(())
}
