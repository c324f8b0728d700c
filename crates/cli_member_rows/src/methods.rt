// The rows of own methods.

ghost use Rattle.std.specs.Prelude.{◌≡◌, ◌≤◌, ◌+◌, ◌-◌, ◌^◌, IfOk, slice_get, codes};
ghost use Rattle.std.specs.Str.{bytes_eq};
ghost use Rattle.cli_metadata.specs.declared.tables.Table.TheVariants as tables;
ghost use Rattle.cli_metadata.specs.Metadata.{rows_of};
ghost use Rattle.cli_members.specs.Members.{IsRow, AreRows};
ghost use Rattle.cli_members.specs.Roles.{IsRole, AreRoles};
ghost use Rattle.cli_member_rows.specs.Methods.{kind_of, is_constructor_name, kind_of_role, is_delegate_row, constructs_delegate, IsOfMethod, IsMethodRow, AreMethodRows};

use crate::sigs::method_types;
use class_rows::{Kind, MemberKind, MemberRow, TypeRow};
use cli_flags::{MemberFlag, has_member_flag, member_access, virt_of};
use cli_members::{Owned, Role};
use cli_metadata::Metadata;
use cli_names::text_at;
use cli_tables::MethodDefRow;
use cli_types::Types;
use dc_base::{NoMemory, Text, TypeId};
use std::alloc::Global;

/// The rows of methods, in their order, as if each that can take over a slot did so. `own` has the rows of own types, and `roles`
/// says what each row of MethodDef is to a property.
pub fn method_rows(
    alloc: Global,
    metadata: &Metadata,
    types: &Types,
    own: &[TypeRow],
    roles: &[Role],
    methods: &[Owned],
) -> Result<Vec<MemberRow>, NoMemory>
    requires roles { AreRoles metadata.now roles.now }
    requires rows { AreRows metadata.now tables.MethodDef methods.now }
    requires room { types.now.tokens.own_from + rows_of metadata.now tables.TypeDef ≤ 2 ^ 32 }
    ensures { IfOk result (λ rows. AreMethodRows metadata.now types.now own.now methods.now rows.items) }
{
    let mut rows = Vec::new(alloc);
    for owned in methods {
        rows.push(method_row(alloc, metadata, types, own, roles, *owned)?)?;
    }
    Ok(rows)
}

fn method_row(
    alloc: Global,
    metadata: &Metadata,
    types: &Types,
    own: &[TypeRow],
    roles: &[Role],
    owned: Owned,
) -> Result<MemberRow, NoMemory>
    requires roles { AreRoles metadata.now roles.now }
    requires row { IsRow metadata.now tables.MethodDef owned }
    requires room { types.now.tokens.own_from + rows_of metadata.now tables.TypeDef ≤ 2 ^ 32 }
    ensures { IfOk result (IsMethodRow metadata.now types.now own.now owned.owner owned.row) }
{
    let row: MethodDefRow = metadata.row(owned.row);
    let role = role_at(metadata, roles, owned.row);
    with_role(alloc, metadata, types, own, owned, row, role)
}

fn with_role(
    alloc: Global,
    metadata: &Metadata,
    types: &Types,
    own: &[TypeRow],
    owned: Owned,
    row: MethodDefRow,
    role: Role,
) -> Result<MemberRow, NoMemory>
    requires role { IsRole metadata.now owned.row role }
    requires type_ { 2 ≤ owned.owner }
    requires room { types.now.tokens.own_from + owned.owner ≤ 2 ^ 32 }
    ensures { IfOk result (IsOfMethod metadata.now types.now own.now owned.owner owned.row row) }
{
    let name = text_at(metadata, row.name);
    let of_delegate = constructs_delegate(own, owned.owner, name);
    let sig = method_types(alloc, metadata, types, row.signature, of_delegate)?;
    Ok(MemberRow {
        owner: TypeId(types.tokens.own_from + (owned.owner - 2)),
        name: Text::of(alloc, name)?,
        kind: kind_of(name, role),
        access: member_access(row.flags),
        is_static: has_member_flag(row.flags, MemberFlag::Static),
        virt: virt_of(row.flags, true),
        params: sig.params,
        result: sig.result,
    })
}

fn constructs_delegate(own: &[TypeRow], n: u32, name: &str) -> bool
    requires { 2 ≤ n }
    ensures { result ≡ constructs_delegate own.now n name.now }
{
    name == ".ctor" && is_delegate(own, n)
}

fn is_delegate(own: &[TypeRow], n: u32) -> bool
    requires { 2 ≤ n }
    ensures { result ≡ is_delegate_row (slice_get own.now (n - 2)) }
{
    match own.get(n as usize - 2) {
        Some(row) => matches!(row.kind, Kind::Delegate),
        None => false,
    }
}

fn role_at(metadata: &Metadata, roles: &[Role], k: u32) -> Role
    requires roles { AreRoles metadata.now roles.now }
    requires low { 1 ≤ k }
    requires high { k ≤ rows_of metadata.now tables.MethodDef }
    ensures { IsRole metadata.now k result }
{
    roles[k as usize - 1]
}

fn kind_of(name: &str, role: Role) -> MemberKind
    ensures { result ≡ kind_of name.now role }
{
    if is_constructor_name(name) {
        return MemberKind::Constructor;
    }
    match role {
        Role::Getter => MemberKind::Getter,
        Role::Setter => MemberKind::Setter,
        Role::None => MemberKind::Method,
    }
}

fn is_constructor_name(name: &str) -> bool
    ensures { result ≡ is_constructor_name name.now }
{
    name == ".ctor" || name == ".cctor"
}
