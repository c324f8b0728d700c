// What an instruction may do beside using its slots.

ghost use Rattle.std.specs.Prelude.{◌≡◌};
ghost use Rattle.std.specs.Bool.{OnTrue, OnFalse};
ghost use Rattle.cli_assembly.specs.Meaning.{AreInOrder};
ghost use Rattle.verify_rules.specs.Slots.{One};
ghost use Rattle.verify_rules.specs.Gap.{Disturbs, Reads, IsDivision, IsTested};

use crate::maker::is_tested;
use crate::this::is_of_this;
use crate::touch::asks_touch;
use cil_rows::{Operator, Row};
use verify_rules::{Setting, Spot};
use verify_slots::Slot;

/// Whether the instruction may fault, ask a question, or change the heap, a local or an argument.
pub fn disturbs(setting: &Setting<'_>, spot: Spot, row: &Row, frame: &[Slot]) -> bool
    requires { AreInOrder setting.now.tokens.now }
    ensures yes { OnTrue result (Disturbs setting.now spot row.now frame.now) }
    ensures no { OnFalse result (Disturbs setting.now spot row.now frame.now → ⊥) }
{
    match row {
        Row::Arithmetic { op, checked, .. } => is_division(*op) || *checked,
        Row::Convert { checked, .. } => *checked,
        Row::LoadField(_) => !is_of_this(setting, spot),
        Row::LoadStatic(token) => asks_touch(setting, *token),
        Row::LoadIndirect(_) => one_tested(frame),
        Row::Function { by_slot, .. } => *by_slot,
        Row::Call { .. }
        | Row::New(_)
        | Row::StoreField(_)
        | Row::StoreStatic(_)
        | Row::StoreLocal(_)
        | Row::StoreArgument(_)
        | Row::StoreElement(_)
        | Row::StoreIndirect(_)
        | Row::LoadElement(_)
        | Row::NewArray(_)
        | Row::Length
        | Row::Cast(_)
        | Row::Box(_)
        | Row::Unbox(_)
        | Row::UnboxAny(_)
        | Row::Throw
        | Row::Rethrow => true,
        _ => false,
    }
}

fn is_division(op: Operator) -> bool
    ensures yes { OnTrue result (IsDivision op) }
    ensures no { OnFalse result (IsDivision op → ⊥) }
{
    matches!(op, Operator::Div | Operator::Rem)
}

fn one_tested(frame: &[Slot]) -> bool
    ensures yes { OnTrue result (One IsTested frame.now) }
    ensures no { OnFalse result (One IsTested frame.now → ⊥) }
{
    match frame {
        [slot, ..] => is_tested(slot),
        _ => false,
    }
}

/// Whether it reads the heap, though it does none of these.
pub fn reads(row: &Row) -> bool
    ensures yes { OnTrue result (Reads row.now) }
    ensures no { OnFalse result (Reads row.now → ⊥) }
{
    matches!(
        row,
        Row::LoadField(_) | Row::LoadStatic(_) | Row::LoadIndirect(_)
    )
}
