// What signatures say, and why a blob is none.

ghost use Rattle.std.specs.Prelude.{◌≡◌};
ghost use Rattle.dc_base.specs.declared.failure.Or.TheVariants.{Fault};

use dc_base::{Or, Seq, Token};
use thiserror::Error;

/// A type. `element` is its last element, and `token` the type that CLASS or VALUETYPE names, else 0.
/// It is an array as often as `arrays` says, or more often where that is 255. `lent` says that BYREF
/// stands before it.
#[derive(Clone, Copy, Debug, PartialEq, Eq)]
pub struct RawTy {
    pub element: u8,
    pub token: Token,
    pub arrays: u8,
    pub lent: bool,
}

/// The types of a method or a property, and whether it is called on an instance.
#[derive(Debug, Drop)]
pub struct MethodSig {
    pub instance: bool,
    pub params: Seq<RawTy>,
    pub result: RawTy,
}

/// Why a blob is no signature: first the place of the first byte with which no signature goes on, which is
/// the blob's length where that ends too soon, and then that byte. OutOfProfile is for elements and lead
/// bytes of the standard that aren't taken. Trailing is the place behind a whole signature.
#[derive(Clone, Copy, Debug, PartialEq, Eq, Error)]
pub enum SigFault {
    #[error("the signature ends too soon, at {0}")]
    Truncated(u32),
    #[error("no signature goes on at {0} with {1:#04x}")]
    BadElement(u32, u8),
    #[error("{1:#04x} at {0} is left out")]
    OutOfProfile(u32, u8),
    #[error("the signature ends before {0}")]
    Trailing(u32),
}

impl From<SigFault> for Or<SigFault> {
    ghost from_gives = { λ fault or. or ≡ Fault fault };

    fn from(fault: SigFault) -> Self {
        Or::Fault(fault)
    }
}
