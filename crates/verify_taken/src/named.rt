// What the tokens of instructions have to name.

ghost use Rattle.std.specs.Prelude.{◌≡◌};
ghost use Rattle.std.specs.Bool.{OnTrue, OnFalse};
ghost use Rattle.cli_assembly.specs.Meaning.{AreInOrder, meaning};
ghost use Rattle.verify_rules.specs.Look.{named_ty, types_of, IsText};
ghost use Rattle.verify_rules.specs.Held.{held_by};
ghost use Rattle.verify_rules.specs.Kinds.{IsSo, IsThere, IsElementType, IsAnyHeld, IsValueHeld, held_access};

use cil_rows::Access;
use cli_assembly::{Named, meaning_of};
use dc_base::{Token, Ty};
use verify_kinds::{is_any_held, is_element_type, is_value_held};
use verify_rules::{Held, Setting, held_by, named_ty};

pub fn names_text(setting: &Setting<'_>, token: Token) -> bool
    requires { AreInOrder setting.now.tokens.now }
    ensures yes { OnTrue result (IsText (meaning setting.now.tokens.now token)) }
    ensures no { OnFalse result (IsText (meaning setting.now.tokens.now token) → ⊥) }
{
    match meaning_of(setting.tokens, token) {
        Some(Named::OfText(_)) => true,
        _ => false,
    }
}

pub fn names_elements(setting: &Setting<'_>, token: Token) -> bool
    requires { AreInOrder setting.now.tokens.now }
    ensures yes { OnTrue result (IsSo (IsElementType setting.now) (named_ty setting.now token)) }
    ensures no { OnFalse result (IsSo (IsElementType setting.now) (named_ty setting.now token) → ⊥) }
{
    match named_ty(setting, token) {
        Some(ty) => is_element_type(setting, ty),
        None => false,
    }
}

pub fn names_reference(setting: &Setting<'_>, token: Token) -> bool
    requires { AreInOrder setting.now.tokens.now }
    ensures yes { OnTrue result (IsSo (λ ty. held_by (types_of setting.now) ty ≡ Held.Reference) (named_ty setting.now token)) }
    ensures no { OnFalse result (IsSo (λ ty. held_by (types_of setting.now) ty ≡ Held.Reference) (named_ty setting.now token) → ⊥) }
{
    match named_ty(setting, token) {
        Some(ty) => is_reference_ty(setting, ty),
        None => false,
    }
}

fn is_reference_ty(setting: &Setting<'_>, ty: Ty) -> bool
    ensures yes { OnTrue result (held_by (types_of setting.now) ty ≡ Held.Reference) }
    ensures no { OnFalse result (held_by (types_of setting.now) ty ≡ Held.Reference → ⊥) }
{
    match held_by(setting.table, ty) {
        Held::Reference => true,
        _ => false,
    }
}

pub fn names_any(setting: &Setting<'_>, token: Token) -> bool
    requires { AreInOrder setting.now.tokens.now }
    ensures yes { OnTrue result (IsSo (λ ty. IsAnyHeld (held_by (types_of setting.now) ty)) (named_ty setting.now token)) }
    ensures no { OnFalse result (IsSo (λ ty. IsAnyHeld (held_by (types_of setting.now) ty)) (named_ty setting.now token) → ⊥) }
{
    match named_ty(setting, token) {
        Some(ty) => is_any_held(held_by(setting.table, ty)),
        None => false,
    }
}

pub fn names_value(setting: &Setting<'_>, token: Token) -> bool
    requires { AreInOrder setting.now.tokens.now }
    ensures yes { OnTrue result (IsSo (λ ty. IsValueHeld (held_by (types_of setting.now) ty)) (named_ty setting.now token)) }
    ensures no { OnFalse result (IsSo (λ ty. IsValueHeld (held_by (types_of setting.now) ty)) (named_ty setting.now token) → ⊥) }
{
    match named_ty(setting, token) {
        Some(ty) => is_value_held(held_by(setting.table, ty)),
        None => false,
    }
}

/// What an access finds. None where it is by no type.
pub fn held_access(setting: &Setting<'_>, access: Access) -> Option<Held>
    requires { AreInOrder setting.now.tokens.now }
    ensures { result ≡ held_access setting.now access }
{
    match access {
        Access::Number(prim) => Some(Held::Number(prim)),
        Access::Reference => Some(Held::Reference),
        Access::Typed(token) => match named_ty(setting, token) {
            Some(ty) => Some(held_by(setting.table, ty)),
            None => None,
        },
    }
}

pub fn is_there(ty: Option<Ty>) -> bool
    ensures yes { OnTrue result (IsThere ty) }
    ensures no { OnFalse result (IsThere ty → ⊥) }
{
    ty.is_some()
}

pub fn is_held(held: Option<Held>) -> bool
    ensures yes { OnTrue result (IsThere held) }
    ensures no { OnFalse result (IsThere held → ⊥) }
{
    held.is_some()
}
