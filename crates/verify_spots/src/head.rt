// Where the head of a constructor ends.

ghost use Rattle.std.specs.Prelude.{◌≡◌, ℕ, Some, None};
ghost use Rattle.std.specs.Bool.{OnTrue, OnFalse};
ghost use Rattle.std.specs.Option.{option_copied};
ghost use Rattle.class_rows.specs.declared.row.Kind.TheVariants.{Class};
ghost use Rattle.cli_assembly.specs.Meaning.{AreInOrder};
ghost use Rattle.verify_rules.specs.Look.{method_row};
ghost use Rattle.verify_rules.specs.Kinds.{IsSo};
ghost use Rattle.verify_spots.specs.Spots.{CallsConstructor, EndsHead, IsConstructor, IsOfClass};
ghost use Rattle.verify_spots.specs.Questions.{HasNoCall, IsFirstCall};

use cil_rows::Row;
use class_rows::{Kind, MemberRow, Sort};
use verify_frames::owner_kind;
use verify_rules::{Setting, member_at, named_row};

/// The number of the call of a constructor that ends the head of one. None in any other method.
pub fn head_end(setting: &Setting<'_>) -> Option<usize>
    requires { AreInOrder setting.now.tokens.now }
    ensures found { (i : ℕ) → result ≡ Some i → EndsHead setting.now i }
    ensures only { (i : ℕ) → EndsHead setting.now i → result ≡ Some i }
{
    if is_in_constructor(setting) {
        first_call(setting)
    } else {
        None
    }
}

fn first_call(setting: &Setting<'_>) -> Option<usize>
    requires { AreInOrder setting.now.tokens.now }
    ensures found { (i : ℕ) → result ≡ Some i → IsFirstCall setting.now i }
    ensures none { result ≡ None → HasNoCall setting.now }
{
    for (number, row) in setting.rows.iter().enumerate() {
        if calls_constructor(setting, row) {
            return Some(number);
        }
    }
    None
}

fn is_in_constructor(setting: &Setting<'_>) -> bool
    ensures yes { OnTrue result (IsSo (IsOfClass setting.now) (method_row setting.now)) }
    ensures no { OnFalse result (IsSo (IsOfClass setting.now) (method_row setting.now) → ⊥) }
{
    match member_at(setting.table, setting.method) {
        Some(method) => is_of_class(setting, method),
        None => false,
    }
}

fn is_of_class(setting: &Setting<'_>, method: &MemberRow) -> bool
    ensures yes { OnTrue result (IsOfClass setting.now method.now) }
    ensures no { OnFalse result (IsOfClass setting.now method.now → ⊥) }
{
    is_constructor(method) && is_class(owner_kind(setting, method))
}

fn is_class(kind: Option<Kind>) -> bool
    ensures yes { OnTrue result (kind ≡ Some Class) }
    ensures no { OnFalse result (kind ≡ Some Class → ⊥) }
{
    match kind {
        Some(kind) => matches!(kind, Kind::Class),
        None => false,
    }
}

fn calls_constructor(setting: &Setting<'_>, row: &Row) -> bool
    requires { AreInOrder setting.now.tokens.now }
    ensures yes { OnTrue result (CallsConstructor setting.now row.now) }
    ensures no { OnFalse result (CallsConstructor setting.now row.now → ⊥) }
{
    match row {
        Row::Call { callee, by_slot } => {
            !*by_slot && names_constructor(named_row(setting, *callee))
        }
        _ => false,
    }
}

fn names_constructor(row: Option<&MemberRow>) -> bool
    ensures yes { OnTrue result (IsSo IsConstructor (option_copied row.entry)) }
    ensures no { OnFalse result (IsSo IsConstructor (option_copied row.entry) → ⊥) }
{
    match row {
        Some(row) => is_constructor(row),
        None => false,
    }
}

fn is_constructor(row: &MemberRow) -> bool
    ensures yes { OnTrue result (IsConstructor row.now) }
    ensures no { OnFalse result (IsConstructor row.now → ⊥) }
{
    row.kind.sort() == Sort::Constructor && !row.is_static
}
