// The rows of the members of types.

ghost use Rattle.std.specs.Prelude.{◌≡◌, IfOk, ◌++◌, [], ◌∷◌, map};
ghost use Rattle.std.specs.Option.{option_map};
ghost use Rattle.cs_declared.specs.Types.{members_of, item_grown, within_of};
ghost use Rattle.cs_declared.specs.Seen.{seen, content_of};
ghost use Rattle.class_written.specs.Forms.{type_id};
ghost use Rattle.class_texts.specs.MemberRows.{all_member_rows, enumerator_row, maker_row, invoke_row, content_rows, rows_from};

use crate::constants::signed;
use crate::members::member_rows;
use crate::parts::{no_params, one_param, params, plain};
use crate::row::{Home, Row};
use class_rows::{Access, Literal, MemberKind, MemberRow, Virt};
use class_written::{Types, void};
use cs_declared::{Declared, What, Within};
use cs_tree::{Enumerator, Item, Kind, Param as TreeParam, TypeForm};
use dc_base::{NoMemory, Text, TypeId};
use std::alloc::Global;

/// The rows of the members of some types, type by type. No memory holds more types than there are numbers.
pub fn all_rows(
    alloc: Global,
    types: &Types<'_>,
    found: &[Declared<'_>],
) -> Result<Vec<Row>, NoMemory>
    ensures { IfOk result (λ rows. rows.items ≡ rows_from types.now 0 (map (λ d. seen d) found.now)) }
{
    let mut rows = Vec::new(alloc);
    for index in 0..found.len() {
        let Ok(number) = u32::try_from(index) else {
            return Err(NoMemory);
        };
        content_rows(alloc, types, TypeId(number), &found[index].what, &mut rows)?;
    }
    Ok(rows)
}

fn content_rows(
    alloc: Global,
    types: &Types<'_>,
    owner: TypeId,
    what: &What<'_>,
    rows: &mut Vec<Row>,
) -> Result<(), NoMemory>
    ensures { IfOk result (λ _. rows.new.items ≡ rows.old.items ++ content_rows types.now owner.0 (content_of what.now)) }
{
    match what {
        What::Body { kind, items, .. } => {
            let home = Home {
                owner,
                within: within_of(*kind),
            };
            body_rows(alloc, types, home, items, rows)
        }
        What::Enum { enumerators, .. } => enum_rows(alloc, types, owner, enumerators, rows),
        What::Delegate { result, params } => {
            delegate_rows(alloc, types, owner, *result, params, rows)
        }
    }
}

fn within_of(kind: Kind) -> Within
    ensures { result ≡ within_of kind }
{
    match kind {
        Kind::Interface => Within::Interface,
        Kind::Class | Kind::Struct => Within::Type,
    }
}

fn body_rows(
    alloc: Global,
    types: &Types<'_>,
    home: Home,
    items: &[Item],
    rows: &mut Vec<Row>,
) -> Result<(), NoMemory>
    ensures { IfOk result (λ _. rows.new.items ≡ rows.old.items ++ all_member_rows types.now home (members_of (map item_grown items.now))) }
{
    for item in items {
        if let Item::Member { member } = item {
            member_rows(alloc, types, home, member, rows)?;
        }
    }
    Ok(())
}

fn enum_rows(
    alloc: Global,
    types: &Types<'_>,
    owner: TypeId,
    enumerators: &[Enumerator],
    rows: &mut Vec<Row>,
) -> Result<(), NoMemory>
    ensures { IfOk result (λ _. rows.new.items ≡ rows.old.items ++ map (enumerator_row types.now owner.0) enumerators.now) }
{
    for enumerator in enumerators {
        rows.push(enumerator_row(alloc, types, owner, enumerator)?)?;
    }
    Ok(())
}

fn enumerator_row(
    alloc: Global,
    types: &Types<'_>,
    owner: TypeId,
    enumerator: &Enumerator,
) -> Result<Row, NoMemory>
    ensures { IfOk result (λ row. row ≡ enumerator_row types.now owner.0 enumerator.now) }
{
    let value = signed(enumerator.negative, enumerator.value);
    Ok(plain(MemberRow {
        owner,
        name: enumerator.name.text.copied(alloc)?,
        kind: MemberKind::Field {
            init_only: false,
            literal: Some(Literal::Number(value)),
        },
        access: Access::Public,
        is_static: true,
        virt: Virt::Plain,
        params: no_params(alloc),
        result: types.own(owner.0),
    }))
}

fn delegate_rows(
    alloc: Global,
    types: &Types<'_>,
    owner: TypeId,
    returns: Option<&TypeForm>,
    params: &[TreeParam],
    rows: &mut Vec<Row>,
) -> Result<(), NoMemory>
    ensures { IfOk result (λ _. rows.new.items ≡ rows.old.items ++ maker_row types.now owner.0 ∷ invoke_row types.now owner.0 (option_map (λ f. f.now) returns.entry) params.now ∷ []) }
{
    rows.push(maker_row(alloc, types, owner)?)?;
    rows.push(invoke_row(alloc, types, owner, returns, params)?)?;
    Ok(())
}

fn maker_row(alloc: Global, types: &Types<'_>, owner: TypeId) -> Result<Row, NoMemory>
    ensures { IfOk result (λ row. row ≡ maker_row types.now owner.0) }
{
    Ok(plain(MemberRow {
        owner,
        name: Text::of(alloc, ".ctor")?,
        kind: MemberKind::Constructor,
        access: Access::Public,
        is_static: false,
        virt: Virt::Plain,
        params: one_param(alloc, types.object())?,
        result: void(),
    }))
}

fn invoke_row(
    alloc: Global,
    types: &Types<'_>,
    owner: TypeId,
    returns: Option<&TypeForm>,
    written: &[TreeParam],
) -> Result<Row, NoMemory>
    ensures { IfOk result (λ row. row ≡ invoke_row types.now owner.0 (option_map (λ f. f.now) returns.entry) written.now) }
{
    let params = params(alloc, types, written)?;
    let result = types.result(alloc, returns)?;
    Ok(plain(MemberRow {
        owner,
        name: Text::of(alloc, "Invoke")?,
        kind: MemberKind::Method,
        access: Access::Public,
        is_static: false,
        virt: Virt::Virtual,
        params,
        result,
    }))
}
