// Whether an instruction keeps a rule.

ghost use Rattle.std.specs.Prelude.{◌≡◌, true, []};
ghost use Rattle.std.specs.Bool.{OnTrue, OnFalse};
ghost use Rattle.cli_assembly.specs.Meaning.{AreInOrder};
ghost use Rattle.verify_rules.specs.Look.{types_of};
ghost use Rattle.verify_rules.specs.Held.{held_by};
ghost use Rattle.verify_rules.specs.Puts.{FitsKind, FitsTruth, FitsType};
ghost use Rattle.verify_rules.specs.Kinds.{IsTaken};
ghost use Rattle.verify_rules.specs.Members.{KeepsDelegate};
ghost use Rattle.verify_rules.specs.Rules.{Keeps, PutsFit, IsEmptied};
ghost use Rattle.verify_puts.specs.Fits.{Fits};

use cil_rows::Row;
use verify_frames::{
    are_zeros, is_emptied, is_shallow, keeps_border, keeps_depth, keeps_init_only, keeps_this,
};
use verify_gaps::has_no_gap;
use verify_members::{keeps_access, keeps_delegate, keeps_receiver};
use verify_puts::{Fit, puts_fit};
use verify_rules::{Rule, Setting, Spot};
use verify_slots::Slot;
use verify_taken::is_taken;

/// Whether the instruction keeps the rule at this frame.
pub fn keeps(setting: &Setting<'_>, spot: Spot, row: &Row, frame: &[Slot], rule: Rule) -> bool
    requires { AreInOrder setting.now.tokens.now }
    ensures yes { OnTrue result (Keeps setting.now spot row.now frame.now rule) }
    ensures no { OnFalse result (Keeps setting.now spot row.now frame.now rule → ⊥) }
{
    match rule {
        Rule::Underflow => keeps_depth(setting, row, frame),
        Rule::MaxStack => is_shallow(setting, row, frame),
        Rule::FallOff => !spot.falls_off,
        Rule::Jump => !spot.jumps_off,
        Rule::Empty => is_empty_where_due(setting, spot, row, frame),
        Rule::InitLocals => are_zeros(setting),
        Rule::Kind => is_of_kind(setting, spot, row, frame),
        Rule::Truth => are_truths(setting, row, frame),
        Rule::Assign => is_assigned(setting, row, frame),
        Rule::ThisStore => keeps_this(setting, row),
        Rule::InitOnly => keeps_init_only(setting, row, frame),
        Rule::Receiver => keeps_receiver(setting, spot, row, frame),
        Rule::Gap => has_no_gap(setting, spot, row, frame),
        Rule::Border => keeps_border(setting, spot, row, frame),
        Rule::Merge => true,
        Rule::Access => keeps_access(setting, row, frame),
    }
}

fn is_empty_where_due(setting: &Setting<'_>, spot: Spot, row: &Row, frame: &[Slot]) -> bool
    requires { AreInOrder setting.now.tokens.now }
    ensures yes { OnTrue result ((spot.begins_try ≡ true → frame.now ≡ []) × IsEmptied setting.now row.now frame.now) }
    ensures no { OnFalse result ((spot.begins_try ≡ true → frame.now ≡ []) × IsEmptied setting.now row.now frame.now → ⊥) }
{
    is_empty_at_try(spot, frame) && is_emptied(setting, row, frame)
}

fn is_empty_at_try(spot: Spot, frame: &[Slot]) -> bool
    ensures yes { OnTrue result (spot.begins_try ≡ true → frame.now ≡ []) }
    ensures no { OnFalse result ((spot.begins_try ≡ true → frame.now ≡ []) → ⊥) }
{
    !spot.begins_try || is_empty(frame)
}

fn is_empty(frame: &[Slot]) -> bool
    ensures yes { OnTrue result (frame.now ≡ []) }
    ensures no { OnFalse result (frame.now ≡ [] → ⊥) }
{
    match frame {
        [] => true,
        _ => false,
    }
}

fn is_of_kind(setting: &Setting<'_>, spot: Spot, row: &Row, frame: &[Slot]) -> bool
    requires { AreInOrder setting.now.tokens.now }
    ensures yes { OnTrue result (IsTaken setting.now spot row.now frame.now × PutsFit setting.now row.now frame.now (λ ty slot. FitsKind (held_by (types_of setting.now) ty) slot)) }
    ensures no { OnFalse result (IsTaken setting.now spot row.now frame.now × PutsFit setting.now row.now frame.now (λ ty slot. FitsKind (held_by (types_of setting.now) ty) slot) → ⊥) }
{
    is_taken(setting, spot, row, frame) && are_of_kind(setting, row, frame)
}

fn are_of_kind(setting: &Setting<'_>, row: &Row, frame: &[Slot]) -> bool
    requires { AreInOrder setting.now.tokens.now }
    ensures yes { OnTrue result (PutsFit setting.now row.now frame.now (λ ty slot. FitsKind (held_by (types_of setting.now) ty) slot)) }
    ensures no { OnFalse result (PutsFit setting.now row.now frame.now (λ ty slot. FitsKind (held_by (types_of setting.now) ty) slot) → ⊥) }
{
    all_fit(setting, Fit::Kind, row, frame)
}

fn are_truths(setting: &Setting<'_>, row: &Row, frame: &[Slot]) -> bool
    requires { AreInOrder setting.now.tokens.now }
    ensures yes { OnTrue result (PutsFit setting.now row.now frame.now (λ ty slot. FitsTruth (held_by (types_of setting.now) ty) slot)) }
    ensures no { OnFalse result (PutsFit setting.now row.now frame.now (λ ty slot. FitsTruth (held_by (types_of setting.now) ty) slot) → ⊥) }
{
    all_fit(setting, Fit::Truth, row, frame)
}

fn is_assigned(setting: &Setting<'_>, row: &Row, frame: &[Slot]) -> bool
    requires { AreInOrder setting.now.tokens.now }
    ensures yes { OnTrue result (PutsFit setting.now row.now frame.now (λ ty slot. FitsType (types_of setting.now) ty (held_by (types_of setting.now) ty) slot) × KeepsDelegate setting.now row.now frame.now) }
    ensures no { OnFalse result (PutsFit setting.now row.now frame.now (λ ty slot. FitsType (types_of setting.now) ty (held_by (types_of setting.now) ty) slot) × KeepsDelegate setting.now row.now frame.now → ⊥) }
{
    are_assigned(setting, row, frame) && keeps_delegate(setting, row, frame)
}

fn are_assigned(setting: &Setting<'_>, row: &Row, frame: &[Slot]) -> bool
    requires { AreInOrder setting.now.tokens.now }
    ensures yes { OnTrue result (PutsFit setting.now row.now frame.now (λ ty slot. FitsType (types_of setting.now) ty (held_by (types_of setting.now) ty) slot)) }
    ensures no { OnFalse result (PutsFit setting.now row.now frame.now (λ ty slot. FitsType (types_of setting.now) ty (held_by (types_of setting.now) ty) slot) → ⊥) }
{
    all_fit(setting, Fit::Assigned, row, frame)
}

fn all_fit(setting: &Setting<'_>, fit: Fit, row: &Row, frame: &[Slot]) -> bool
    requires { AreInOrder setting.now.tokens.now }
    ensures yes { OnTrue result (PutsFit setting.now row.now frame.now (Fits setting.now fit)) }
    ensures no { OnFalse result (PutsFit setting.now row.now frame.now (Fits setting.now fit) → ⊥) }
{
    puts_fit(setting, fit, row, frame)
}
