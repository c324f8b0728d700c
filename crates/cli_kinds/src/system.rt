// The types that tell what a type is by being its base.

ghost use Rattle.std.specs.Prelude.{◌≡◌, ◌<◌, ◌^◌, codes, length, None, Some};
ghost use Rattle.std.specs.Bool.{OnTrue, OnFalse};
ghost use Rattle.cli_kinds.specs.System.{IsSystemTypes, IsFirstSystem, IsSystemRow};

use class_rows::TypeRow;
use dc_base::TypeId;

/// System.Enum, System.MulticastDelegate and System.ValueType, where the references have them.
#[derive(Clone, Copy, Debug)]
pub struct System {
    pub enums: Option<TypeId>,
    pub delegates: Option<TypeId>,
    pub values: Option<TypeId>,
}

/// The three types among those of the references. It takes the time of three looks at each of these.
pub fn system_of(references: &[TypeRow]) -> System
    requires { length references.now < 2 ^ 32 }
    ensures { IsSystemTypes references.now result }
{
    System {
        enums: system_type(references, "Enum"),
        delegates: system_type(references, "MulticastDelegate"),
        values: system_type(references, "ValueType"),
    }
}

fn system_type(references: &[TypeRow], name: &str) -> Option<TypeId>
    requires { length references.now < 2 ^ 32 }
    ensures { IsFirstSystem references.now name.now result }
{
    for t in 0..references.len() {
        if is_system(&references[t], name) {
            return Some(TypeId(t as u32));
        }
    }
    None
}

fn is_system(row: &TypeRow, name: &str) -> bool
    ensures yes { OnTrue result (IsSystemRow name.now row.now) }
    ensures no { OnFalse result (IsSystemRow name.now row.now → ⊥) }
{
    !row.own && row.outer.is_none() && row.space.as_str() == "System" && row.name.as_str() == name
}
