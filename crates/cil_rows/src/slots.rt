// How many slots a row takes and gives.

ghost use Rattle.std.specs.Prelude.{◌≡◌};
ghost use Rattle.cil_rows.specs.Slots.{takes, gives};

use crate::row::Row;

impl Row {
    /// How many slots the row takes from the stack. None where that is for a signature to say: at a `ret`, a call and
    /// a `newobj`.
    pub fn takes(&self) -> Option<usize>
        ensures { result ≡ takes self.now }
    {
        match self {
            Row::Return | Row::Call { .. } | Row::New(_) => None,
            Row::StoreElement(_) => Some(3),
            Row::Arithmetic { .. }
            | Row::Bitwise(_)
            | Row::Shift(_)
            | Row::Compare { .. }
            | Row::BranchCompare { .. }
            | Row::StoreField(_)
            | Row::LoadElement(_)
            | Row::ElementAddress(_)
            | Row::StoreIndirect(_) => Some(2),
            Row::Function { by_slot, .. } => Some(usize::from(*by_slot)),
            Row::Nop
            | Row::LoadArgument(_)
            | Row::ArgumentAddress(_)
            | Row::LoadLocal(_)
            | Row::LocalAddress(_)
            | Row::Null
            | Row::Truth(_)
            | Row::Int(_)
            | Row::Long(_)
            | Row::Text(_)
            | Row::Branch { .. }
            | Row::Leave { .. }
            | Row::Rethrow
            | Row::EndFinally
            | Row::LoadStatic(_)
            | Row::StaticAddress(_) => Some(0),
            _ => Some(1),
        }
    }

    /// How many slots the row gives to the stack. None where that is for a signature to say: at a call.
    pub fn gives(&self) -> Option<usize>
        ensures { result ≡ gives self.now }
    {
        match self {
            Row::Call { .. } => None,
            Row::Dup => Some(2),
            Row::Nop
            | Row::Pop
            | Row::Return
            | Row::StoreArgument(_)
            | Row::StoreLocal(_)
            | Row::Branch { .. }
            | Row::BranchIf { .. }
            | Row::BranchCompare { .. }
            | Row::Switch(_)
            | Row::Leave { .. }
            | Row::Throw
            | Row::Rethrow
            | Row::EndFinally
            | Row::StoreField(_)
            | Row::StoreStatic(_)
            | Row::StoreElement(_)
            | Row::StoreIndirect(_) => Some(0),
            _ => Some(1),
        }
    }
}
