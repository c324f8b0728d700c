// What is known of fields.

use class_rows::TypeRow;
use dc_base::{Ty, TypeId};

/// What the fields of a file are, an item for each row of Field.
#[derive(Clone, Copy, Debug)]
pub struct Fields<'a> {
    /// How many rows of Constant are its own, and the first of them.
    pub constants: &'a [(u32, u32)],
    /// The types of the fields.
    pub tys: &'a [Ty],
    /// All types, which those of the fields name by number.
    pub types: &'a [TypeRow],
    /// System.String.
    pub string: TypeId,
}
