// What a type is.

ghost use Rattle.std.specs.Prelude.{◌≡◌};
ghost use Rattle.cli_kinds.specs.Kinds.{is_base, kind_of};

use crate::System;
use class_rows::Kind;
use cli_flags::{TypeFlag, has_type_flag};
use dc_base::{Prim_, TypeId};

/// What a type with these flags and this base is; `values` is the type of its values where it is an enum.
pub fn kind_of(system: System, flags: u32, base: Option<TypeId>, values: Prim_) -> Kind
    ensures { result ≡ kind_of system flags base values }
{
    if has_type_flag(flags, TypeFlag::Interface) {
        return Kind::Interface;
    }
    if is_base(base, system.enums) {
        return Kind::Enum(values);
    }
    if is_base(base, system.delegates) {
        return Kind::Delegate;
    }
    if is_base(base, system.values) {
        return Kind::Opaque;
    }
    if has_type_flag(flags, TypeFlag::Abstract) && has_type_flag(flags, TypeFlag::Sealed) {
        return Kind::StaticClass;
    }
    Kind::Class
}

fn is_base(base: Option<TypeId>, system: Option<TypeId>) -> bool
    ensures { result ≡ is_base base system }
{
    match base {
        Some(base) => match system {
            Some(system) => base.0 == system.0,
            None => false,
        },
        None => false,
    }
}
