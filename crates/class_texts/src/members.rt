// The rows of members.

ghost use Rattle.std.specs.Prelude.{◌≡◌, IfOk, ◌++◌, [], ◌∷◌, map};
ghost use Rattle.std.specs.Option.{option_map};
ghost use Rattle.class_texts.specs.MemberRows.{field_row, constant_row, method_row, explicit_row, method_rows, constructor_row, operator_row, member_rows, implementing, plain};
ghost use Rattle.class_texts.specs.ByKind.{of_field, of_method, of_property, of_indexer, of_maker};
ghost use Rattle.cs_declared.specs.Names.{joined};

use crate::constants::constant_value;
use crate::parts::{access_of, no_params, params, plain, virt_of};
use crate::properties::{indexer_rows, property_rows};
use crate::row::{Home, Row};
use class_rows::{Access, MemberKind, MemberRow, Virt};
use class_written::{Types, void};
use cs_declared::{dotted, joined};
use cs_tree::{Explicit, Form, Member, Mods, Name, Param as TreeParam, TypeForm};
use dc_base::{NoMemory, Text};
use std::alloc::Global;

/// The rows of a member, behind those that are there.
pub fn member_rows(
    alloc: Global,
    types: &Types<'_>,
    home: Home,
    member: &Member,
    rows: &mut Vec<Row>,
) -> Result<(), NoMemory>
    ensures { IfOk result (λ _. rows.new.items ≡ rows.old.items ++ member_rows types.now home member.now) }
{
    match member {
        Member::Field { .. } | Member::Constant { .. } => {
            of_field(alloc, types, home, member, rows)
        }
        Member::Method { .. } => of_method(alloc, types, home, member, rows),
        Member::Property { .. } => of_property(alloc, types, home, member, rows),
        Member::Indexer { .. } => of_indexer(alloc, types, home, member, rows),
        Member::Maker { .. } | Member::Operator { .. } => {
            of_maker(alloc, types, home, member, rows)
        }
        Member::Constructor { .. } | Member::Initializer { .. } => Ok(()),
    }
}

// The row of a field or of a constant.
fn of_field(
    alloc: Global,
    types: &Types<'_>,
    home: Home,
    member: &Member,
    rows: &mut Vec<Row>,
) -> Result<(), NoMemory>
    ensures { IfOk result (λ _. rows.new.items ≡ rows.old.items ++ of_field types.now home member.now) }
{
    match member {
        Member::Field { mods, ty, name, .. } => {
            add(rows, field_row(alloc, types, home, *mods, ty, name)?)
        }
        Member::Constant {
            mods,
            ty,
            name,
            value,
            ..
        } => add(
            rows,
            constant_row(alloc, types, home, *mods, ty, name, value)?,
        ),
        _ => Ok(()),
    }
}

// The row of a method.
fn of_method(
    alloc: Global,
    types: &Types<'_>,
    home: Home,
    member: &Member,
    rows: &mut Vec<Row>,
) -> Result<(), NoMemory>
    ensures { IfOk result (λ _. rows.new.items ≡ rows.old.items ++ of_method types.now home member.now) }
{
    match member {
        Member::Method {
            mods,
            result,
            explicit,
            name,
            params,
            ..
        } => {
            let returns = result.as_ref();
            let params = params.items();
            let signature = Signature {
                returns,
                name,
                params,
            };
            let explicit = explicit.as_ref();
            add_method(alloc, types, home, *mods, explicit, signature, rows)
        }
        _ => Ok(()),
    }
}

// The rows of a property.
fn of_property(
    alloc: Global,
    types: &Types<'_>,
    home: Home,
    member: &Member,
    rows: &mut Vec<Row>,
) -> Result<(), NoMemory>
    ensures { IfOk result (λ _. rows.new.items ≡ rows.old.items ++ of_property types.now home member.now) }
{
    match member {
        Member::Property {
            mods,
            ty,
            name,
            getter,
            setter,
            ..
        } => {
            let accessors = (getter.as_ref(), setter.as_ref());
            property_rows(alloc, types, home, *mods, ty, name, accessors, rows)
        }
        _ => Ok(()),
    }
}

// The rows of an indexer.
fn of_indexer(
    alloc: Global,
    types: &Types<'_>,
    home: Home,
    member: &Member,
    rows: &mut Vec<Row>,
) -> Result<(), NoMemory>
    ensures { IfOk result (λ _. rows.new.items ≡ rows.old.items ++ of_indexer types.now home member.now) }
{
    match member {
        Member::Indexer {
            mods,
            ty,
            name,
            index_ty,
            getter,
            setter,
            ..
        } => {
            let forms = (ty, index_ty);
            let accessors = (getter.as_ref(), setter.as_ref());
            indexer_rows(alloc, types, home, *mods, forms, name, accessors, rows)
        }
        _ => Ok(()),
    }
}

// The row of a constructor or of an operator.
fn of_maker(
    alloc: Global,
    types: &Types<'_>,
    home: Home,
    member: &Member,
    rows: &mut Vec<Row>,
) -> Result<(), NoMemory>
    ensures { IfOk result (λ _. rows.new.items ≡ rows.old.items ++ of_maker types.now home member.now) }
{
    match member {
        Member::Maker { mods, params, .. } => add(
            rows,
            constructor_row(alloc, types, home, *mods, params.items())?,
        ),
        Member::Operator {
            ty,
            name,
            params,
            ..
        } => add(
            rows,
            operator_row(alloc, types, home, ty, name, params.items())?,
        ),
        _ => Ok(()),
    }
}

/// What a method returns, its name and its parameters, as they are written.
#[derive(Clone, Copy, Debug)]
pub struct Signature<'a> {
    pub returns: Option<&'a TypeForm>,
    pub name: &'a Name,
    pub params: &'a [TreeParam],
}

fn add(rows: &mut Vec<Row>, row: MemberRow) -> Result<(), NoMemory>
    ensures { IfOk result (λ _. rows.new.items ≡ rows.old.items ++ plain row ∷ []) }
{
    rows.push(plain(row))?;
    Ok(())
}

fn add_method(
    alloc: Global,
    types: &Types<'_>,
    home: Home,
    mods: Mods,
    explicit: Option<&Explicit>,
    signature: Signature<'_>,
    rows: &mut Vec<Row>,
) -> Result<(), NoMemory>
    ensures { IfOk result (λ _. rows.new.items ≡ rows.old.items ++ method_rows types.now home mods (option_map (λ f. f.now) signature.entry.returns) (option_map (λ e. e.now) explicit.entry) signature.entry.name.now signature.entry.params.now ∷ []) }
{
    match explicit {
        Some(explicit) => {
            rows.push(explicit_row(alloc, types, home, explicit, signature)?)?;
        }
        None => {
            rows.push(plain(method_row(alloc, types, home, mods, signature)?))?;
        }
    }
    Ok(())
}

fn field_row(
    alloc: Global,
    types: &Types<'_>,
    home: Home,
    mods: Mods,
    ty: &TypeForm,
    name: &Name,
) -> Result<MemberRow, NoMemory>
    ensures { IfOk result (λ row. row ≡ field_row types.now home mods ty.now name.now) }
{
    Ok(MemberRow {
        owner: home.owner,
        name: name.text.copied(alloc)?,
        kind: MemberKind::Field {
            init_only: mods.is_readonly,
            literal: None,
        },
        access: access_of(home, mods.access),
        is_static: mods.is_static,
        virt: Virt::Plain,
        params: no_params(alloc),
        result: types.ty(alloc, ty, false)?,
    })
}

fn constant_row(
    alloc: Global,
    types: &Types<'_>,
    home: Home,
    mods: Mods,
    ty: &TypeForm,
    name: &Name,
    value: &Form,
) -> Result<MemberRow, NoMemory>
    ensures { IfOk result (λ row. row ≡ constant_row types.now home mods ty.now name.now value.now) }
{
    let result = types.ty(alloc, ty, false)?;
    let value = constant_value(alloc, value)?;
    Ok(MemberRow {
        owner: home.owner,
        name: name.text.copied(alloc)?,
        kind: MemberKind::Field {
            init_only: false,
            literal: Some(value),
        },
        access: access_of(home, mods.access),
        is_static: true,
        virt: Virt::Plain,
        params: no_params(alloc),
        result,
    })
}

fn method_row(
    alloc: Global,
    types: &Types<'_>,
    home: Home,
    mods: Mods,
    signature: Signature<'_>,
) -> Result<MemberRow, NoMemory>
    ensures { IfOk result (λ row. row ≡ method_row types.now home mods (option_map (λ f. f.now) signature.entry.returns) signature.entry.name.now signature.entry.params.now) }
{
    let params = params(alloc, types, signature.params)?;
    let result = types.result(alloc, signature.returns)?;
    Ok(MemberRow {
        owner: home.owner,
        name: signature.name.text.copied(alloc)?,
        kind: MemberKind::Method,
        access: access_of(home, mods.access),
        is_static: mods.is_static,
        virt: virt_of(home.within, mods),
        params,
        result,
    })
}

fn explicit_row(
    alloc: Global,
    types: &Types<'_>,
    home: Home,
    explicit: &Explicit,
    signature: Signature<'_>,
) -> Result<Row, NoMemory>
    ensures { IfOk result (λ row. row ≡ implementing types.now home (option_map (λ f. f.now) signature.entry.returns) (joined explicit.now.path) signature.entry.name.now signature.entry.params.now) }
{
    let params = params(alloc, types, signature.params)?;
    let result = types.result(alloc, signature.returns)?;
    let interface = joined(alloc, explicit.path.items())?;
    let row = MemberRow {
        owner: home.owner,
        name: dotted(alloc, &interface, &signature.name.text)?,
        kind: MemberKind::Method,
        access: Access::Private,
        is_static: false,
        virt: Virt::Plain,
        params,
        result,
    };
    Ok(Row {
        row,
        implements: Some((interface, signature.name.text.copied(alloc)?)),
    })
}

fn constructor_row(
    alloc: Global,
    types: &Types<'_>,
    home: Home,
    mods: Mods,
    written: &[TreeParam],
) -> Result<MemberRow, NoMemory>
    ensures { IfOk result (λ row. row ≡ constructor_row types.now home mods written.now) }
{
    let name = if mods.is_static { ".cctor" } else { ".ctor" };
    Ok(MemberRow {
        owner: home.owner,
        name: Text::of(alloc, name)?,
        kind: MemberKind::Constructor,
        access: access_of(home, mods.access),
        is_static: mods.is_static,
        virt: Virt::Plain,
        params: params(alloc, types, written)?,
        result: void(),
    })
}

fn operator_row(
    alloc: Global,
    types: &Types<'_>,
    home: Home,
    ty: &TypeForm,
    name: &Name,
    written: &[TreeParam],
) -> Result<MemberRow, NoMemory>
    ensures { IfOk result (λ row. row ≡ operator_row types.now home ty.now name.now written.now) }
{
    let result = types.ty(alloc, ty, false)?;
    Ok(MemberRow {
        owner: home.owner,
        name: name.text.copied(alloc)?,
        kind: MemberKind::Operator,
        access: Access::Public,
        is_static: true,
        virt: Virt::Plain,
        params: params(alloc, types, written)?,
        result,
    })
}
