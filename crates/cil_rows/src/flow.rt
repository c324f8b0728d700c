// Where a row leads to.

ghost use Rattle.std.specs.Prelude.{◌≡◌};
ghost use Rattle.cil_rows.specs.Flow.{aims_of, ends_method, goes_on};

use crate::row::Row;
use std::slice;

impl Row {
    /// Where the row may lead besides the next instruction, in the order of a switch's cases.
    pub fn aims(&self) -> &[u32]
        ensures { result.now ≡ aims_of self.now }
    {
        match self {
            Row::Branch { to }
            | Row::BranchIf { to, .. }
            | Row::BranchCompare { to, .. }
            | Row::Leave { to } => slice::from_ref(to),
            Row::Switch(targets) => targets.items(),
            _ => &[],
        }
    }

    /// Whether the row may lead to the next instruction.
    pub fn goes_on(&self) -> bool
        ensures { result ≡ goes_on self.now }
    {
        match self {
            Row::Branch { .. } | Row::Leave { .. } | Row::EndFinally => false,
            row => !row.ends_method(),
        }
    }

    /// Whether nothing of the method comes after the row, unless a handler takes what it throws.
    pub fn ends_method(&self) -> bool
        ensures { result ≡ ends_method self.now }
    {
        matches!(self, Row::Return | Row::Throw | Row::Rethrow)
    }
}
