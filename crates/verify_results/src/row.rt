// The slot that an instruction gives.

ghost use Rattle.std.specs.Prelude.{◌≡◌, ◌<◌, IfOk};
ghost use Rattle.cli_assembly.specs.Meaning.{AreInOrder};
ghost use Rattle.verify_rules.specs.Look.{named_ty};
ghost use Rattle.verify_rules.specs.Kinds.{IsTaken, IsSo};
ghost use Rattle.verify_rules.specs.Results.{gives_slot, array_made};

use crate::array::array_read;
use crate::number::{converted, lower_bits, lower_number, upper_number};
use crate::object::{array_made, cast_to, class_of, code_of, instance_of, object_made};
use crate::place::{
    address_of, argument_slot, field_ty, local, one_of, place_read, slot_there, tested_by,
};
use cil_rows::Row;
use dc_base::{NoMemory, Seq};
use std::alloc::Global;
use verify_frames::{argument, result_of};
use verify_gaps::asks_touch;
use verify_rules::{Setting, Spot, named_member, named_row, named_ty};
use verify_slots::{Mark, Slot, Tested};

/// The slot that an instruction gives, besides `dup`. None where it gives none.
pub fn gives_slot(
    alloc: Global,
    setting: &Setting<'_>,
    spot: Spot,
    of_this: bool,
    row: &Row,
    frame: &[Slot],
) -> Result<Option<Slot>, NoMemory>
    requires ordered { AreInOrder setting.now.tokens.now }
    requires taken { IsTaken setting.now spot row.now frame.now }
    ensures { IfOk result (λ slot. slot ≡ gives_slot setting.now spot of_this row.now frame.now) }
{
    match row {
        Row::LoadArgument(number) => argument_slot(alloc, setting, *number),
        Row::ArgumentAddress(number) => { Ok(address_of(Tested::Yes, argument(setting, *number))) }
        Row::LoadLocal(number) => slot_there(alloc, setting, local(setting, *number)),
        Row::LocalAddress(number) => Ok(address_of(Tested::Yes, local(setting, *number))),
        Row::Null => Ok(Some(Slot::Refs(Seq::new(alloc), Mark::Other))),
        Row::Truth(_) | Row::Compare { .. } => Ok(Some(Slot::Truth)),
        Row::Int(_) => Ok(Some(Slot::Int)),
        Row::Long(_) => Ok(Some(Slot::Long)),
        Row::Text(_) => one_of(alloc, class_of(setting.core.string), Mark::Fresh),
        Row::Arithmetic { .. } | Row::Shift(_) => Ok(lower_number(frame)),
        Row::Bitwise(_) => Ok(lower_bits(frame)),
        Row::Unary(_) => Ok(upper_number(frame)),
        Row::Convert { to, .. } => Ok(Some(converted(*to))),
        Row::Call { callee, .. } => {
            slot_there(alloc, setting, result_of(named_row(setting, *callee)))
        }
        Row::New(token) => object_made(alloc, setting, named_row(setting, *token)),
        Row::Function { target, .. } => Ok(code_of(named_member(setting, *target))),
        Row::LoadField(token) | Row::LoadStatic(token) => {
            slot_there(alloc, setting, field_ty(named_row(setting, *token)))
        }
        Row::FieldAddress(token) => {
            let field = field_ty(named_row(setting, *token));
            Ok(address_of(tested_by(spot, !of_this), field))
        }
        Row::StaticAddress(token) => {
            let field = field_ty(named_row(setting, *token));
            Ok(address_of(tested_by(spot, asks_touch(setting, *token)), field))
        }
        Row::NewArray(token) => array_made(alloc, named_ty(setting, *token)),
        Row::Length => Ok(Some(Slot::Length)),
        Row::LoadElement(access) => array_read(alloc, setting, *access, frame),
        Row::ElementAddress(token) | Row::Unbox(token) => Ok(address_of(
            Tested::By(spot.number),
            named_ty(setting, *token),
        )),
        Row::LoadIndirect(_) => place_read(alloc, setting, frame),
        Row::Cast(token) => cast_to(alloc, named_ty(setting, *token)),
        Row::IsInstance(token) => instance_of(alloc, setting, named_ty(setting, *token)),
        Row::Box(_) => one_of(alloc, class_of(setting.core.object), Mark::Other),
        Row::UnboxAny(token) => slot_there(alloc, setting, named_ty(setting, *token)),
        _ => Ok(None),
    }
}
