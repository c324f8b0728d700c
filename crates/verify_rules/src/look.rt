// What tokens and numbers name.

ghost use Rattle.std.specs.Prelude.{◌≡◌};
ghost use Rattle.std.specs.Option.{option_copied};
ghost use Rattle.cli_assembly.specs.Meaning.{AreInOrder};
ghost use Rattle.verify_rules.specs.Look.{named_ty, named_member, named_row, member_at};

use crate::setting::Setting;
use class_rows::MemberRow;
use class_table::ClassTable;
use cli_assembly::{Named, meaning_of};
use dc_base::{MemberId, Token, Ty};

/// The type that a token names. None where it names none.
pub fn named_ty(setting: &Setting<'_>, token: Token) -> Option<Ty>
    requires { AreInOrder setting.now.tokens.now }
    ensures { result ≡ named_ty setting.now token }
{
    match meaning_of(setting.tokens, token) {
        Some(Named::OfType(ty)) => Some(*ty),
        _ => None,
    }
}

/// The member that a token names. None where it names none.
pub fn named_member(setting: &Setting<'_>, token: Token) -> Option<MemberId>
    requires { AreInOrder setting.now.tokens.now }
    ensures { result ≡ named_member setting.now token }
{
    match meaning_of(setting.tokens, token) {
        Some(Named::OfMember(member)) => Some(*member),
        _ => None,
    }
}

/// The row of the member that a token names. None where it names none of the table.
pub fn named_row<'a>(setting: &Setting<'a>, token: Token) -> Option<&'a MemberRow>
    requires { AreInOrder setting.now.tokens.now }
    ensures { option_copied result ≡ named_row setting.now token }
{
    match named_member(setting, token) {
        Some(member) => member_at(setting.table, member),
        None => None,
    }
}

/// The member of this number. None where there is none.
pub fn member_at(table: &ClassTable, member: MemberId) -> Option<&MemberRow>
    ensures { option_copied result ≡ member_at table.now.members member }
{
    if member.0 < table.members() {
        Some(table.member_row(member))
    } else {
        None
    }
}
