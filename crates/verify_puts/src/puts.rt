// Whether all that is put fits.

ghost use Rattle.std.specs.Prelude.{◌≡◌, slice_get};
ghost use Rattle.std.specs.Bool.{OnTrue, OnFalse};
ghost use Rattle.std.specs.Option.{option_copied};
ghost use Rattle.cli_assembly.specs.Meaning.{AreInOrder};
ghost use Rattle.verify_rules.specs.Look.{ty_of_param};
ghost use Rattle.verify_rules.specs.Puts.{top_place, this_put, this_depth, arguments};
ghost use Rattle.verify_puts.specs.Fits.{FitsThere, ArgumentsFit, ElementsFit, SetFits, ArrayFits, ThroughFits, PartsFit, place_of, element_at};

use crate::fit::{Fit, fits_there};
use crate::place::{arguments, this_depth, this_put, top_place};
use cil_rows::Row;
use class_rows::Param;
use dc_base::Ty;
use verify_kinds::element_of;
use verify_rules::Setting;
use verify_slots::Slot;

/// Whether each slot that the instruction puts into a place fits it.
pub fn puts_fit(setting: &Setting<'_>, fit: Fit, row: &Row, frame: &[Slot]) -> bool
    requires { AreInOrder setting.now.tokens.now }
    ensures yes { OnTrue result (PartsFit setting.now fit row.now frame.now) }
    ensures no { OnFalse result (PartsFit setting.now fit row.now frame.now → ⊥) }
{
    if !top_fits(setting, fit, row, frame) {
        return false;
    }
    if !receiver_fits(setting, fit, row, frame) {
        return false;
    }
    if !passed_fits(setting, fit, row, frame) {
        return false;
    }
    through_fits(setting, fit, row, frame)
}

fn top_fits(setting: &Setting<'_>, fit: Fit, row: &Row, frame: &[Slot]) -> bool
    requires { AreInOrder setting.now.tokens.now }
    ensures yes { OnTrue result (FitsThere setting.now fit (top_place setting.now row.now) (slice_get frame.now 0)) }
    ensures no { OnFalse result (FitsThere setting.now fit (top_place setting.now row.now) (slice_get frame.now 0) → ⊥) }
{
    fits_there(setting, fit, top_place(setting, row), slot_at(frame, 0))
}

fn receiver_fits(setting: &Setting<'_>, fit: Fit, row: &Row, frame: &[Slot]) -> bool
    requires { AreInOrder setting.now.tokens.now }
    ensures yes { OnTrue result (FitsThere setting.now fit (this_put setting.now row.now) (slice_get frame.now (this_depth setting.now row.now))) }
    ensures no { OnFalse result (FitsThere setting.now fit (this_put setting.now row.now) (slice_get frame.now (this_depth setting.now row.now)) → ⊥) }
{
    let receiver = slot_at(frame, this_depth(setting, row));
    fits_there(setting, fit, this_put(setting, row), receiver)
}

fn passed_fits(setting: &Setting<'_>, fit: Fit, row: &Row, frame: &[Slot]) -> bool
    requires { AreInOrder setting.now.tokens.now }
    ensures yes { OnTrue result (ArgumentsFit setting.now fit (arguments setting.now row.now) frame.now) }
    ensures no { OnFalse result (ArgumentsFit setting.now fit (arguments setting.now row.now) frame.now → ⊥) }
{
    arguments_fit(setting, fit, arguments(setting, row), frame)
}

// The slot so far below the top.
fn slot_at(frame: &[Slot], depth: usize) -> Option<&Slot>
    ensures { option_copied result ≡ slice_get frame.now depth }
{
    frame.get(depth)
}

fn arguments_fit(setting: &Setting<'_>, fit: Fit, params: &[Param], frame: &[Slot]) -> bool
    ensures yes { OnTrue result (ArgumentsFit setting.now fit params.now frame.now) }
    ensures no { OnFalse result (ArgumentsFit setting.now fit params.now frame.now → ⊥) }
{
    for number in 0..params.len() {
        let slot = slot_at(frame, params.len() - 1 - number);
        if !fits_there(setting, fit, param_at(params, number), slot) {
            return false;
        }
    }
    true
}

fn param_at(params: &[Param], number: usize) -> Option<Ty>
    ensures { result ≡ ty_of_param (slice_get params.now number) }
{
    match params.get(number) {
        Some(param) => Some(param.ty),
        None => None,
    }
}

fn through_fits(setting: &Setting<'_>, fit: Fit, row: &Row, frame: &[Slot]) -> bool
    ensures yes { OnTrue result (ThroughFits setting.now fit row.now frame.now) }
    ensures no { OnFalse result (ThroughFits setting.now fit row.now frame.now → ⊥) }
{
    match row {
        Row::StoreIndirect(_) => {
            fits_there(setting, fit, place_of(slot_at(frame, 1)), slot_at(frame, 0))
        }
        Row::StoreElement(_) => { array_fits(setting, fit, slot_at(frame, 2), slot_at(frame, 0)) },
        _ => true,
    }
}

fn place_of(slot: Option<&Slot>) -> Option<Ty>
    ensures { result ≡ place_of (option_copied slot.entry) }
{
    match slot {
        Some(Slot::Lent(ty, _)) => Some(*ty),
        _ => None,
    }
}

fn array_fits(setting: &Setting<'_>, fit: Fit, array: Option<&Slot>, slot: Option<&Slot>) -> bool
    ensures yes { OnTrue result (ArrayFits setting.now fit (option_copied array.entry) (option_copied slot.entry)) }
    ensures no { OnFalse result (ArrayFits setting.now fit (option_copied array.entry) (option_copied slot.entry) → ⊥) }
{
    match array {
        Some(array) => set_fits(setting, fit, array, slot),
        None => true,
    }
}

fn set_fits(setting: &Setting<'_>, fit: Fit, array: &Slot, slot: Option<&Slot>) -> bool
    ensures yes { OnTrue result (SetFits setting.now fit array.now (option_copied slot.entry)) }
    ensures no { OnFalse result (SetFits setting.now fit array.now (option_copied slot.entry) → ⊥) }
{
    match array {
        Slot::Refs(set, _) => elements_fit(setting, fit, set.items(), slot),
        _ => true,
    }
}

fn elements_fit(setting: &Setting<'_>, fit: Fit, set: &[Ty], slot: Option<&Slot>) -> bool
    ensures yes { OnTrue result (ElementsFit setting.now fit set.now (option_copied slot.entry)) }
    ensures no { OnFalse result (ElementsFit setting.now fit set.now (option_copied slot.entry) → ⊥) }
{
    for number in 0..set.len() {
        if !fits_there(setting, fit, element_at(set, number), slot) {
            return false;
        }
    }
    true
}

fn element_at(set: &[Ty], number: usize) -> Option<Ty>
    ensures { result ≡ element_at (slice_get set.now number) }
{
    match set.get(number) {
        Some(array) => element_of(*array),
        None => None,
    }
}
