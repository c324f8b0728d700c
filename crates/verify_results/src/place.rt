// What is read from places, and their addresses.

ghost use Rattle.std.specs.Prelude.{◌≡◌, IfOk, slice_get};
ghost use Rattle.std.specs.Option.{option_copied};
ghost use Rattle.cli_assembly.specs.Meaning.{AreInOrder};
ghost use Rattle.verify_rules.specs.Look.{types_of, argument, method_row};
ghost use Rattle.verify_rules.specs.Held.{unlent, slot_held, slot_of};
ghost use Rattle.verify_rules.specs.Puts.{field_ty};
ghost use Rattle.verify_rules.specs.Results.{one_of, slot_there, argument_slot, is_static_of, address_of, tested_by, upper_of, place_read};

use class_rows::MemberRow;
use dc_base::{NoMemory, Seq, Ty};
use std::alloc::Global;
use verify_frames::argument;
use verify_rules::{Held, Setting, Spot, held_by, member_at, number_slot};
use verify_slots::{Mark, Slot, Tested};

/// A reference to an object of one type.
pub fn one_of(alloc: Global, ty: Ty, mark: Mark) -> Result<Option<Slot>, NoMemory>
    ensures { IfOk result (λ slot. slot ≡ one_of ty mark) }
{
    let mut set = Vec::new(alloc);
    set.push(ty)?;
    Ok(Some(Slot::Refs(Seq::of(set), mark)))
}

/// What is read from a place of this type. None where there is none, or it holds nothing.
pub fn slot_there(
    alloc: Global,
    setting: &Setting<'_>,
    ty: Option<Ty>,
) -> Result<Option<Slot>, NoMemory>
    ensures { IfOk result (λ slot. slot ≡ slot_there setting.now ty) }
{
    match ty {
        Some(ty) => slot_of(alloc, setting, ty),
        None => Ok(None),
    }
}

fn slot_of(alloc: Global, setting: &Setting<'_>, ty: Ty) -> Result<Option<Slot>, NoMemory>
    ensures { IfOk result (λ slot. slot ≡ slot_of (types_of setting.now) ty) }
{
    slot_held(alloc, ty, held_by(setting.table, ty))
}

fn slot_held(alloc: Global, ty: Ty, held: Held) -> Result<Option<Slot>, NoMemory>
    ensures { IfOk result (λ slot. slot ≡ slot_held ty held) }
{
    match held {
        Held::Nothing => Ok(None),
        Held::Number(prim) => Ok(Some(number_slot(prim))),
        Held::Reference => one_of(alloc, ty, Mark::Other),
        Held::Opaque(value) => Ok(Some(Slot::Opaque(value))),
        Held::Address => Ok(Some(Slot::Lent(unlent(ty), Tested::Yes))),
    }
}

fn unlent(ty: Ty) -> Ty
    ensures { result ≡ unlent ty }
{
    Ty {
        core: ty.core,
        arrays: ty.arrays,
        lent: false,
    }
}

/// An argument; the receiver is marked as such.
pub fn argument_slot(
    alloc: Global,
    setting: &Setting<'_>,
    number: u16,
) -> Result<Option<Slot>, NoMemory>
    ensures { IfOk result (λ slot. slot ≡ argument_slot setting.now number (is_static_of (method_row setting.now)) (argument setting.now number)) }
{
    let is_static = is_static_of(member_at(setting.table, setting.method));
    slot_of_argument(alloc, setting, number, is_static, argument(setting, number))
}

fn is_static_of(row: Option<&MemberRow>) -> bool
    ensures { result ≡ is_static_of (option_copied row.entry) }
{
    match row {
        Some(row) => row.is_static,
        None => true,
    }
}

fn slot_of_argument(
    alloc: Global,
    setting: &Setting<'_>,
    number: u16,
    is_static: bool,
    ty: Option<Ty>,
) -> Result<Option<Slot>, NoMemory>
    ensures { IfOk result (λ slot. slot ≡ argument_slot setting.now number is_static ty) }
{
    if number == 0 {
        first_argument(alloc, setting, is_static, ty)
    } else {
        slot_there(alloc, setting, ty)
    }
}

fn first_argument(
    alloc: Global,
    setting: &Setting<'_>,
    is_static: bool,
    ty: Option<Ty>,
) -> Result<Option<Slot>, NoMemory>
    ensures { IfOk result (λ slot. slot ≡ argument_slot setting.now 0 is_static ty) }
{
    if is_static {
        return slot_there(alloc, setting, ty);
    }
    match ty {
        Some(ty) => one_of(alloc, ty, Mark::This),
        None => Ok(None),
    }
}

/// The type of a local. None where there is no such local.
pub fn local(setting: &Setting<'_>, number: u16) -> Option<Ty>
    ensures { result ≡ slice_get setting.now.locals.now number }
{
    match setting.locals.get(usize::from(number)) {
        Some(ty) => Some(*ty),
        None => None,
    }
}

/// The address of a place. None where there is none.
pub fn address_of(tested: Tested, ty: Option<Ty>) -> Option<Slot>
    ensures { result ≡ address_of tested ty }
{
    match ty {
        Some(ty) => Some(Slot::Lent(ty, tested)),
        None => None,
    }
}

/// Whose the tests of an address are: its maker's, or those of its first use.
pub fn tested_by(spot: Spot, late: bool) -> Tested
    ensures { result ≡ tested_by spot late }
{
    if late {
        Tested::By(spot.number)
    } else {
        Tested::Yes
    }
}

/// The type of a field. None where there is none.
pub fn field_ty(row: Option<&MemberRow>) -> Option<Ty>
    ensures { result ≡ field_ty (option_copied row.entry) }
{
    match row {
        Some(row) => Some(row.result),
        None => None,
    }
}

/// What is read at the address on top.
pub fn place_read(
    alloc: Global,
    setting: &Setting<'_>,
    frame: &[Slot],
) -> Result<Option<Slot>, NoMemory>
    ensures { IfOk result (λ slot. slot ≡ upper_of (place_read setting.now) frame.now) }
{
    match frame {
        [slot, ..] => read_at(alloc, setting, slot),
        _ => Ok(None),
    }
}

fn read_at(alloc: Global, setting: &Setting<'_>, slot: &Slot) -> Result<Option<Slot>, NoMemory>
    ensures { IfOk result (λ read. read ≡ place_read setting.now slot.now) }
{
    match slot {
        Slot::Lent(ty, _) => slot_of(alloc, setting, *ty),
        _ => Ok(None),
    }
}
