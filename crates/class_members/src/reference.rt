// Types of the references.

ghost use Rattle.std.specs.Prelude.{IsTrue};
ghost use Rattle.class_rows.specs.Names.{IsReference};

use class_rows::TypeRow;
use dc_base::TypeId;

/// Whether a type stands in one of the references, and not in the assembly that is read.
pub fn is_reference(types: &[TypeRow], t: TypeId) -> bool
    ensures yes { IsTrue result → IsReference types.now t.0 }
    ensures no { IsReference types.now t.0 → IsTrue result }
{
    match types.get(t.0 as usize) {
        Some(row) => !row.own,
        None => false,
    }
}
