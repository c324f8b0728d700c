// Types and whole texts.

ghost use Rattle.std.specs.Prelude.{◌≡◌, ◌++◌, OnOk, map};
ghost use Rattle.std.specs.String.{string_bytes};
ghost use Rattle.cs_layout.specs.Pieces.{followed};
ghost use Rattle.cs_layout.specs.Layout.{line};
ghost use Rattle.cs_unit_layout.specs.Heads.{note_pieces};
ghost use Rattle.cs_unit_layout.specs.Units.{between, each, enumerator_laid, body_head, enum_head, delegate_head, decl_laid, item_laid, namespace_laid, space_laid, unit_laid};

use crate::members::write_member;
use cs_layout::{Fixed, write_fixed};
use cs_lines::{deeper, write_indent, write_line};
use cs_tree::{Decl, Enumerator, Item, Kind, Mods, Name, Param, Path, Space, TypeForm, Unit};
use cs_unit_layout::{
    write_assembly, write_body_head, write_delegate_head, write_enum_head, write_enumerators,
    write_namespace_head, write_note,
};
use dc_base::{NoMemory, Text};
use std::alloc::Global;

#[tactic(auto, using(cs_layout::proofs::Following::followed_append))]
fn write_enum(
    alloc: Global,
    out: &mut String,
    note: &Option<Text>,
    mods: Mods,
    name: &Name,
    ty: &TypeForm,
    enumerators: &[Enumerator],
    margin: &str,
) -> Result<(), NoMemory>
    ensures { OnOk result (string_bytes out.new ≡ followed (string_bytes out.old) (note_pieces note.now margin.now ++ (line margin.now (enum_head mods name.now ty.now) ++ between (each (map enumerator_laid enumerators.now)) margin.now))) }
{
    let inner = deeper(alloc, margin)?;
    write_note(out, note, margin)?;
    write_indent(out, margin)?;
    write_enum_head(out, mods, name, ty)?;
    write_fixed(out, Fixed::Newline)?;
    write_line(out, Fixed::OpenBrace, margin)?;
    write_enumerators(out, enumerators, inner.as_str())?;
    write_line(out, Fixed::CloseBrace, margin)?;
    Ok(())
}

#[tactic(auto, using(cs_layout::proofs::Following::followed_append))]
fn write_delegate(
    out: &mut String,
    note: &Option<Text>,
    mods: Mods,
    ty: &Option<TypeForm>,
    name: &Name,
    params: &[Param],
    margin: &str,
) -> Result<(), NoMemory>
    ensures { OnOk result (string_bytes out.new ≡ followed (string_bytes out.old) (note_pieces note.now margin.now ++ line margin.now (delegate_head mods ty.now name.now params.now))) }
{
    write_note(out, note, margin)?;
    write_indent(out, margin)?;
    write_delegate_head(out, mods, ty, name, params)?;
    write_fixed(out, Fixed::Newline)?;
    Ok(())
}

#[cycle(types)]
#[tactic(auto, using(cs_layout::proofs::Following::followed_append, cs_layout::proofs::Following::followed_nothing))]
fn write_each_item(
    alloc: Global,
    out: &mut String,
    items: &[Item],
    margin: &str,
) -> Result<(), NoMemory>
    ensures { OnOk result (string_bytes out.new ≡ followed (string_bytes out.old) (each (map item_laid items.now) margin.now)) }
{
    for item in items {
        write_item(alloc, out, item, margin)?;
    }
    Ok(())
}

/// What stands in a type, between braces.
#[cycle(types)]
#[tactic(auto, using(cs_layout::proofs::Following::followed_append))]
fn write_items(
    alloc: Global,
    out: &mut String,
    items: &[Item],
    margin: &str,
) -> Result<(), NoMemory>
    ensures { OnOk result (string_bytes out.new ≡ followed (string_bytes out.old) (between (each (map item_laid items.now)) margin.now)) }
{
    let inner = deeper(alloc, margin)?;
    write_line(out, Fixed::OpenBrace, margin)?;
    write_each_item(alloc, out, items, inner.as_str())?;
    write_line(out, Fixed::CloseBrace, margin)?;
    Ok(())
}

#[cycle(types)]
#[tactic(auto, using(cs_layout::proofs::Following::followed_append))]
fn write_body_type(
    alloc: Global,
    out: &mut String,
    note: &Option<Text>,
    mods: Mods,
    kind: Kind,
    name: &Name,
    bases: &[TypeForm],
    items: &[Item],
    margin: &str,
) -> Result<(), NoMemory>
    ensures { OnOk result (string_bytes out.new ≡ followed (string_bytes out.old) (note_pieces note.now margin.now ++ (line margin.now (body_head mods kind name.now bases.now) ++ between (each (map item_laid items.now)) margin.now))) }
{
    write_note(out, note, margin)?;
    write_indent(out, margin)?;
    write_body_head(out, mods, kind, name, bases)?;
    write_fixed(out, Fixed::Newline)?;
    write_items(alloc, out, items, margin)?;
    Ok(())
}

#[cycle(types)]
#[tactic(auto, using(cs_layout::proofs::Following::followed_append))]
fn write_item(alloc: Global, out: &mut String, item: &Item, margin: &str) -> Result<(), NoMemory>
    ensures { OnOk result (string_bytes out.new ≡ followed (string_bytes out.old) (item_laid item.now margin.now)) }
{
    match item {
        Item::Member { member } => write_member(alloc, out, member, margin),
        Item::Type { decl } => write_decl(alloc, out, decl.get(), margin),
    }
}

/// A type on lines of its own, behind this margin.
#[cycle(types)]
#[tactic(auto, using(cs_layout::proofs::Following::followed_append))]
fn write_decl(alloc: Global, out: &mut String, decl: &Decl, margin: &str) -> Result<(), NoMemory>
    ensures { OnOk result (string_bytes out.new ≡ followed (string_bytes out.old) (decl_laid decl.now margin.now)) }
{
    match decl {
        Decl::Body {
            note,
            mods,
            kind,
            name,
            bases,
            items,
            ..
        } => {
            write_body_type(
                alloc,
                out,
                note,
                *mods,
                *kind,
                name,
                bases.items(),
                items.as_slice(),
                margin,
            )
        }
        Decl::Enum {
            note,
            mods,
            name,
            ty,
            enumerators,
            ..
        } => write_enum(
            alloc,
            out,
            note,
            *mods,
            name,
            ty,
            enumerators.items(),
            margin,
        ),
        Decl::Delegate {
            note,
            mods,
            result,
            name,
            params,
            ..
        } => write_delegate(out, note, *mods, result, name, params.items(), margin),
    }
}

#[tactic(auto, using(cs_layout::proofs::Following::followed_append, cs_layout::proofs::Following::followed_nothing))]
fn write_each_decl(
    alloc: Global,
    out: &mut String,
    types: &[Decl],
    margin: &str,
) -> Result<(), NoMemory>
    ensures { OnOk result (string_bytes out.new ≡ followed (string_bytes out.old) (each (map decl_laid types.now) margin.now)) }
{
    for decl in types {
        write_decl(alloc, out, decl, margin)?;
    }
    Ok(())
}

#[tactic(auto, using(cs_layout::proofs::Following::followed_append))]
fn write_namespace(
    alloc: Global,
    out: &mut String,
    note: &Option<Text>,
    path: &Path,
    types: &[Decl],
    margin: &str,
) -> Result<(), NoMemory>
    ensures { OnOk result (string_bytes out.new ≡ followed (string_bytes out.old) (namespace_laid note.now path.now types.now margin.now)) }
{
    let inner = deeper(alloc, margin)?;
    write_note(out, note, margin)?;
    write_indent(out, margin)?;
    write_namespace_head(out, path)?;
    write_fixed(out, Fixed::Newline)?;
    write_line(out, Fixed::OpenBrace, margin)?;
    write_each_decl(alloc, out, types, inner.as_str())?;
    write_line(out, Fixed::CloseBrace, margin)?;
    Ok(())
}

fn write_space(alloc: Global, out: &mut String, space: &Space, margin: &str) -> Result<(), NoMemory>
    ensures { OnOk result (string_bytes out.new ≡ followed (string_bytes out.old) (space_laid space.now margin.now)) }
{
    match space {
        Space::Namespace {
            note,
            path,
            types,
            ..
        } => write_namespace(alloc, out, note, path, types.as_slice(), margin),
        Space::Type { decl } => write_decl(alloc, out, decl, margin),
    }
}

#[tactic(auto, using(cs_layout::proofs::Following::followed_append, cs_layout::proofs::Following::followed_nothing))]
fn write_each_space(
    alloc: Global,
    out: &mut String,
    spaces: &[Space],
    margin: &str,
) -> Result<(), NoMemory>
    ensures { OnOk result (string_bytes out.new ≡ followed (string_bytes out.old) (each (map space_laid spaces.now) margin.now)) }
{
    for space in spaces {
        write_space(alloc, out, space, margin)?;
    }
    Ok(())
}

/// A whole text.
#[tactic(auto, using(cs_layout::proofs::Following::followed_append))]
pub(crate) fn write_unit(alloc: Global, out: &mut String, unit: &Unit) -> Result<(), NoMemory>
    ensures { OnOk result (string_bytes out.new ≡ followed (string_bytes out.old) (unit_laid unit.now)) }
{
    write_assembly(out, &unit.assembly)?;
    write_each_space(alloc, out, unit.spaces.as_slice(), "")?;
    Ok(())
}
