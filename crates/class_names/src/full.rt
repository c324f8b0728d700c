// The full name of a type.

ghost use Rattle.std.specs.Prelude.{◌≡◌, ◌++◌, ◌<◌, ℕ, length, map, IfOk};
ghost use Rattle.std.specs.String.{string_bytes};
ghost use Rattle.class_chains.specs.Ends.{IsAboveFirst};
ghost use Rattle.class_rows.specs.Types.{IsOuter};
ghost use Rattle.class_rows.specs.Names.{dotted, IsFullName};
ghost use Rattle.class_names.specs.Outers.{OutersAreThere};
ghost use Rattle.class_names.specs.Inner.{behind};

use class_parts::outer_of;
use class_rows::TypeRow;
use dc_base::{NoMemory, Text, TypeId};
use std::alloc::Global;

/// The full name of a type: its namespace, the types round it from the outside in, and its own name, with dots between
/// them. The order has each type behind its outer type.
pub fn full_name(
    alloc: Global,
    types: &[TypeRow],
    order: &[u32],
    t: TypeId,
) -> Result<Text, NoMemory>
    requires order { IsAboveFirst (IsOuter types.now) (length types.now) order.now }
    requires outers { OutersAreThere types.now }
    requires within { t.0 < length types.now }
    ensures { IfOk result (λ name. IsFullName types.now t.0 name) }
{
    let mut inner = Vec::new(alloc);
    let mut at = t;
    while let Some(outer) = outer_of(types, at) {
        inner.push(types[at.0 as usize].name.as_str())?;
        at = outer;
    }
    joined(alloc, &types[at.0 as usize], inner.as_slice())
}

// The name of a type that is nested in none, and behind it the inner names from the last to the first.
fn joined(alloc: Global, top: &TypeRow, inner: &[&str]) -> Result<Text, NoMemory>
    ensures { IfOk result (λ name. name ≡ dotted top.now.space top.now.name ++ behind (map (λ part. part.now) inner.now)) }
{
    let mut name = top_name(alloc, top)?;
    for index in (0..inner.len()).rev() {
        name.push_str(".")?;
        name.push_str(inner[index])?;
    }
    Ok(Text::from_string(name))
}

fn top_name(alloc: Global, top: &TypeRow) -> Result<String, NoMemory>
    ensures { IfOk result (λ name. string_bytes name ≡ dotted top.now.space top.now.name) }
{
    let mut name = String::new(alloc);
    if !top.space.as_str().is_empty() {
        name.push_str(top.space.as_str())?;
        name.push_str(".")?;
    }
    name.push_str(top.name.as_str())?;
    Ok(name)
}
