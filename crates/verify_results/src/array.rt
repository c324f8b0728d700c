// What is read from arrays.

ghost use Rattle.std.specs.Prelude.{◌≡◌, ◌++◌, Some, IfOk, OnOk};
ghost use Rattle.std.specs.Option.{option_to_list};
ghost use Rattle.cli_assembly.specs.Meaning.{AreInOrder};
ghost use Rattle.verify_rules.specs.Kinds.{held_named};
ghost use Rattle.verify_rules.specs.Results.{array_read, element_read, number_read, upper_held, elements};

use crate::number::least_number;
use crate::place::slot_there;
use cil_rows::Access;
use dc_base::{NoMemory, Prim_, Seq, Ty};
use std::alloc::Global;
use verify_kinds::element_of;
use verify_rules::{Held, Setting, held_by, named_ty, number_slot};
use verify_slots::{Mark, Slot};

/// An element of the array under its index.
pub fn array_read(
    alloc: Global,
    setting: &Setting<'_>,
    access: Access,
    frame: &[Slot],
) -> Result<Option<Slot>, NoMemory>
    requires { AreInOrder setting.now.tokens.now }
    ensures { IfOk result (λ slot. slot ≡ array_read setting.now access frame.now) }
{
    match frame {
        [_, array, ..] => element_read(alloc, setting, access, array),
        _ => Ok(None),
    }
}

fn element_read(
    alloc: Global,
    setting: &Setting<'_>,
    access: Access,
    array: &Slot,
) -> Result<Option<Slot>, NoMemory>
    requires { AreInOrder setting.now.tokens.now }
    ensures { IfOk result (λ slot. slot ≡ element_read setting.now access array.now) }
{
    match array {
        Slot::Refs(set, _) => element_of_set(alloc, setting, access, set.items()),
        _ => Ok(None),
    }
}

fn element_of_set(
    alloc: Global,
    setting: &Setting<'_>,
    access: Access,
    set: &[Ty],
) -> Result<Option<Slot>, NoMemory>
    requires { AreInOrder setting.now.tokens.now }
    ensures { IfOk result (λ slot. slot ≡ element_read setting.now access (Slot.Refs set.now Mark.Other)) }
{
    match access {
        Access::Number(prim) => Ok(number_read(setting, prim, set)),
        Access::Reference => reference_read(alloc, set),
        Access::Typed(token) => slot_there(alloc, setting, named_ty(setting, token)),
    }
}

fn reference_read(alloc: Global, set: &[Ty]) -> Result<Option<Slot>, NoMemory>
    ensures { IfOk result (λ slot. slot ≡ Some (Slot.Refs (elements set.now) Mark.Other)) }
{
    Ok(Some(Slot::Refs(elements(alloc, set)?, Mark::Other)))
}

fn number_read(setting: &Setting<'_>, prim: Prim_, set: &[Ty]) -> Option<Slot>
    ensures { result ≡ number_read setting.now prim set.now }
{
    match set {
        [array, ..] => element_number(setting, element_of(*array)),
        _ => Some(least_number(prim)),
    }
}

fn element_number(setting: &Setting<'_>, ty: Option<Ty>) -> Option<Slot>
    ensures { result ≡ upper_held (held_named setting.now ty) }
{
    match ty {
        Some(ty) => match held_by(setting.table, ty) {
            Held::Number(prim) => Some(number_slot(prim)),
            _ => None,
        },
        None => None,
    }
}

// The element types of some arrays.
fn elements(alloc: Global, set: &[Ty]) -> Result<Seq<Ty>, NoMemory>
    ensures { IfOk result (λ types. types ≡ elements set.now) }
{
    let mut types = Vec::new(alloc);
    for array in set {
        put_element(&mut types, element_of(*array))?;
    }
    Ok(Seq::of(types))
}

fn put_element(types: &mut Vec<Ty>, element: Option<Ty>) -> Result<(), NoMemory>
    ensures { OnOk result (types.new.items ≡ types.old.items ++ option_to_list element) }
{
    if let Some(ty) = element {
        types.push(ty)?;
    }
    Ok(())
}
