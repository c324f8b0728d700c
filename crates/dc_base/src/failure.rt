// Want of memory, alone and beside a fault of the call's own.

ghost use Rattle.std.specs.Prelude.{◌≡◌};
ghost use Rattle.dc_base.specs.declared.failure.Or.TheVariants.{NoMemory as WithoutMemory};

use std::alloc::{AllocError, AllocFailed};
use std::fmt::{Debug, Display};
use thiserror::Error;

/// Memory was wanted and not there. A call that answers this has dropped what it consumed.
#[derive(Clone, Copy, Debug, Error)]
#[error("out of memory")]
pub struct NoMemory;

impl From<AllocError> for NoMemory {
    fn from(_: AllocError) -> Self {
        NoMemory
    }
}

impl<T: Drop> From<AllocFailed<T>> for NoMemory {
    fn from(_: AllocFailed<T>) -> Self {
        NoMemory
    }
}

/// Want of memory, or a fault `E` of the call.
#[derive(Clone, Copy, Debug, Error)]
#[error_bound(E: Debug + Display)]
pub enum Or<E> {
    #[error("out of memory")]
    NoMemory,
    #[error("{0}")]
    Fault(E),
}

impl<E> From<AllocError> for Or<E> {
    ghost from_gives = { λ _ e. e ≡ WithoutMemory };

    fn from(_: AllocError) -> Self {
        Or::NoMemory
    }
}

impl<E, T: Drop> From<AllocFailed<T>> for Or<E> {
    ghost from_gives = { λ _ e. e ≡ WithoutMemory };

    fn from(_: AllocFailed<T>) -> Self {
        Or::NoMemory
    }
}

impl<E> From<NoMemory> for Or<E> {
    ghost from_gives = { λ _ e. e ≡ WithoutMemory };

    fn from(_: NoMemory) -> Self {
        Or::NoMemory
    }
}

#[cfg(test)]
mod tests {
    use super::*;
    use std::test::Fail;

    #[test]
    fn tells_what_is_wrong(rt: HostRuntime) -> Result<(), Fail> {
        let alloc = rt.alloc();
        for (error, text) in [(Or::NoMemory, "out of memory"), (Or::Fault(7), "7")] {
            assert_eq!(rt; format!(in alloc; "{error}")?.as_str(), text);
        }
        Ok(())
    }
}
