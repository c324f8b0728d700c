// The rows of properties and indexers.

ghost use Rattle.std.specs.Prelude.{◌≡◌, IfOk, ◌++◌, [], ◌∷◌, map};
ghost use Rattle.std.specs.Option.{option_map};
ghost use Rattle.class_texts.specs.MemberRows.{property_rows, indexer_rows, getter_row, setter_row, accessor_row, by_value, plain};

use crate::parts::{access_of, by_value, no_params, one_param, plain, prefixed, virt_of};
use crate::row::{Home, Row};
use class_rows::{MemberKind, MemberRow, Param};
use class_written::{Types, access_or, void};
use cs_tree::{Accessor, Mods, Name, TypeForm};
use dc_base::{NoMemory, Seq, Text, Ty};
use std::alloc::Global;

/// The rows of a property, its getter first.
pub fn property_rows(
    alloc: Global,
    types: &Types<'_>,
    home: Home,
    mods: Mods,
    ty: &TypeForm,
    name: &Name,
    accessors: (Option<&Accessor>, Option<&Accessor>),
    rows: &mut Vec<Row>,
) -> Result<(), NoMemory>
    ensures { IfOk result (λ _. rows.new.items ≡ rows.old.items ++ map plain (property_rows types.now home mods ty.now name.now (option_map (λ a. a.now) accessors.entry.0) (option_map (λ a. a.now) accessors.entry.1))) }
{
    let (getter, setter) = accessors;
    let ty = types.ty(alloc, ty, false)?;
    add_getter(
        alloc,
        home,
        mods,
        MemberKind::Getter,
        no_params(alloc),
        ty,
        name,
        getter,
        rows,
    )?;
    add_setter(
        alloc,
        home,
        mods,
        MemberKind::Setter,
        no_params(alloc),
        ty,
        name,
        setter,
        rows,
    )
}

/// The rows of an indexer, its getter first; the types are its own and that of its parameter.
pub fn indexer_rows(
    alloc: Global,
    types: &Types<'_>,
    home: Home,
    mods: Mods,
    forms: (&TypeForm, &TypeForm),
    name: &Name,
    accessors: (Option<&Accessor>, Option<&Accessor>),
    rows: &mut Vec<Row>,
) -> Result<(), NoMemory>
    ensures { IfOk result (λ _. rows.new.items ≡ rows.old.items ++ map plain (indexer_rows types.now home mods forms.entry.0.now name.now forms.entry.1.now (option_map (λ a. a.now) accessors.entry.0) (option_map (λ a. a.now) accessors.entry.1))) }
{
    let (getter, setter) = accessors;
    let ty = types.ty(alloc, forms.0, false)?;
    let index = types.ty(alloc, forms.1, false)?;
    let taken = one_param(alloc, index)?;
    add_getter(
        alloc,
        home,
        mods,
        MemberKind::Indexer,
        taken,
        ty,
        name,
        getter,
        rows,
    )?;
    let taken = one_param(alloc, index)?;
    add_setter(
        alloc,
        home,
        mods,
        MemberKind::Indexer,
        taken,
        ty,
        name,
        setter,
        rows,
    )
}

fn add_getter(
    alloc: Global,
    home: Home,
    mods: Mods,
    kind: MemberKind,
    params: Seq<Param>,
    ty: Ty,
    name: &Name,
    getter: Option<&Accessor>,
    rows: &mut Vec<Row>,
) -> Result<(), NoMemory>
    ensures { IfOk result (λ _. rows.new.items ≡ rows.old.items ++ map plain (getter_row home mods kind params ty name.now (option_map (λ a. a.now) getter.entry))) }
{
    if let Some(accessor) = getter {
        let name = prefixed(alloc, "get_", &name.text)?;
        rows.push(plain(accessor_row(home, mods, accessor, name, kind, params, ty)))?;
    }
    Ok(())
}

fn add_setter(
    alloc: Global,
    home: Home,
    mods: Mods,
    kind: MemberKind,
    params: Seq<Param>,
    ty: Ty,
    name: &Name,
    setter: Option<&Accessor>,
    rows: &mut Vec<Row>,
) -> Result<(), NoMemory>
    ensures { IfOk result (λ _. rows.new.items ≡ rows.old.items ++ map plain (setter_row home mods kind params ty name.now (option_map (λ a. a.now) setter.entry))) }
{
    if let Some(accessor) = setter {
        let name = prefixed(alloc, "set_", &name.text)?;
        let mut params = params;
        params.push(by_value(ty))?;
        rows.push(plain(accessor_row(home, mods, accessor, name, kind, params, void())))?;
    }
    Ok(())
}

fn accessor_row(
    home: Home,
    mods: Mods,
    accessor: &Accessor,
    name: Text,
    kind: MemberKind,
    params: Seq<Param>,
    ty: Ty,
) -> MemberRow
    ensures { result ≡ accessor_row home mods accessor.now name kind params ty }
{
    MemberRow {
        owner: home.owner,
        name,
        kind,
        access: access_or(accessor.mods.access, access_of(home, mods.access)),
        is_static: mods.is_static,
        virt: virt_of(home.within, mods),
        params,
        result: ty,
    }
}
