// Which methods are accessors of properties.

ghost use Rattle.std.specs.Prelude.{◌≡◌, IfOk};
ghost use Rattle.cli_members.specs.Roles.{AreRoles};
ghost use Rattle.cli_members.specs.Put.{IsPut, role_in, of_property};

use cli_metadata::{Metadata, Table};
use cli_tables::MethodSemanticsRow;
use dc_base::{NoMemory, Token};
use std::alloc::Global;

/// What a method is to a property (ECMA-335 II.23.1.12).
#[derive(Clone, Copy, Debug, PartialEq, Eq)]
pub enum Role {
    None,
    Getter,
    Setter,
}

// How many rows a token can tell of a table, with row 0.
const ROWS: u32 = 0x100_0000;

/// For each row of MethodDef what it is to a property, by the first row of MethodSemantics that names it so. It takes the time
/// of one look at each row of MethodSemantics.
pub fn roles_of(alloc: Global, metadata: &Metadata) -> Result<Vec<Role>, NoMemory>
    ensures { IfOk result (λ roles. AreRoles metadata.now roles.items) }
{
    let mut roles = vec![in alloc; Role::None; metadata.rows(Table::MethodDef) as usize]?;
    for k in (0..metadata.rows(Table::MethodSemantics)).rev() {
        let row: MethodSemanticsRow = metadata.row(k + 1);
        let role = role_in(row.semantics, row.association.token());
        roles = with_role(roles, row.method, role);
    }
    Ok(roles)
}

fn with_role(roles: Vec<Role>, method: u32, role: Role) -> Vec<Role>
    ensures { IsPut method role roles.items result.items }
{
    let mut roles = roles;
    if role != Role::None && 1 <= method && method as usize <= roles.len() {
        roles[method as usize - 1] = role;
    }
    roles
}

// What a row of MethodSemantics makes its method.
fn role_in(semantics: u32, association: Option<Token>) -> Role
    ensures { result ≡ role_in semantics association }
{
    if !of_property(association) {
        return Role::None;
    }
    if semantics & 0x2 != 0 {
        Role::Getter
    } else if semantics & 0x1 != 0 {
        Role::Setter
    } else {
        Role::None
    }
}

fn of_property(association: Option<Token>) -> bool
    ensures { result ≡ of_property association }
{
    match association {
        Some(token) => token.0 / ROWS == 0x17,
        None => false,
    }
}
