// What the makers of addresses do.

ghost use Rattle.std.specs.Prelude.{◌≡◌};
ghost use Rattle.std.specs.Bool.{OnTrue, OnFalse};
ghost use Rattle.std.specs.Option.{option_copied};
ghost use Rattle.cli_assembly.specs.Meaning.{AreInOrder};
ghost use Rattle.verify_rules.specs.declared.held.Held.TheVariants.{Reference};
ghost use Rattle.verify_rules.specs.Look.{types_of, named_ty};
ghost use Rattle.verify_rules.specs.Held.{held_by};
ghost use Rattle.verify_rules.specs.Kinds.{IsSo};
ghost use Rattle.verify_rules.specs.Gap.{asks_touch, touches_owner, IsTouching, IsOfReferenceElement};

use cil_rows::Row;
use class_rows::MemberRow;
use dc_base::{Token, Ty};
use verify_rules::{Held, Setting, held_by, named_row, named_ty};

/// Whether an access to a static field asks first if its type is initialized.
pub fn asks_touch(setting: &Setting<'_>, token: Token) -> bool
    requires { AreInOrder setting.now.tokens.now }
    ensures { result ≡ asks_touch setting.now token }
{
    touches_owner(setting, named_row(setting, token))
}

fn touches_owner(setting: &Setting<'_>, field: Option<&MemberRow>) -> bool
    ensures { result ≡ touches_owner setting.now (option_copied field.entry) }
{
    match field {
        Some(row) => match setting.touching.get(row.owner.0 as usize) {
            Some(asks) => *asks,
            None => true,
        },
        None => true,
    }
}

/// Whether the instruction of this number makes the address of a static field.
pub fn is_touching(setting: &Setting<'_>, number: u32) -> bool
    ensures yes { OnTrue result (IsTouching setting.now number) }
    ensures no { OnFalse result (IsTouching setting.now number → ⊥) }
{
    match setting.rows.get(number as usize) {
        Some(Row::StaticAddress(_)) => true,
        _ => false,
    }
}

/// Whether it makes the address of an element that is a reference.
pub fn is_of_reference_element(setting: &Setting<'_>, number: u32) -> bool
    requires { AreInOrder setting.now.tokens.now }
    ensures yes { OnTrue result (IsOfReferenceElement setting.now number) }
    ensures no { OnFalse result (IsOfReferenceElement setting.now number → ⊥) }
{
    match setting.rows.get(number as usize) {
        Some(Row::ElementAddress(token)) => names_reference(setting, *token),
        _ => false,
    }
}

fn names_reference(setting: &Setting<'_>, token: Token) -> bool
    requires { AreInOrder setting.now.tokens.now }
    ensures yes { OnTrue result (IsSo (λ ty. held_by (types_of setting.now) ty ≡ Reference) (named_ty setting.now token)) }
    ensures no { OnFalse result (IsSo (λ ty. held_by (types_of setting.now) ty ≡ Reference) (named_ty setting.now token) → ⊥) }
{
    match named_ty(setting, token) {
        Some(ty) => is_reference(setting, ty),
        None => false,
    }
}

fn is_reference(setting: &Setting<'_>, ty: Ty) -> bool
    ensures yes { OnTrue result (held_by (types_of setting.now) ty ≡ Reference) }
    ensures no { OnFalse result (held_by (types_of setting.now) ty ≡ Reference → ⊥) }
{
    match held_by(setting.table, ty) {
        Held::Reference => true,
        _ => false,
    }
}
