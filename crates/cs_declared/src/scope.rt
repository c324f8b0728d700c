// Where a declaration stands.

ghost use Rattle.std.specs.Prelude.{◌≡◌, IfOk};
ghost use Rattle.class_rows.specs.Names.{dotted};
ghost use Rattle.cs_declared.specs.Names.{joined};

use crate::Within;
use dc_base::{NoMemory, Text, TypeId};
use std::alloc::Global;

/// What stands round a declaration: the type that it is nested in, the namespace of types that are nested in none, and the full name
/// of that type, or the namespace.
#[derive(Debug, Drop)]
pub struct Scope {
    pub outer: Option<TypeId>,
    pub within: Within,
    pub space: Text,
    pub front: Text,
}

/// Two names with a dot between them.
pub fn dotted(alloc: Global, front: &Text, name: &Text) -> Result<Text, NoMemory>
    ensures { IfOk result (λ text. text ≡ dotted front.now name.now) }
{
    let mut text = String::new(alloc);
    if !front.as_str().is_empty() {
        text.push_str(front.as_str())?;
        text.push_str(".")?;
    }
    text.push_str(name.as_str())?;
    Ok(Text::from_string(text))
}

/// Names with dots between them.
pub fn joined(alloc: Global, names: &[Text]) -> Result<Text, NoMemory>
    ensures { IfOk result (λ text. text ≡ joined names.now) }
{
    let mut text = Text::of(alloc, "")?;
    for name in names {
        text = dotted(alloc, &text, name)?;
    }
    Ok(text)
}
