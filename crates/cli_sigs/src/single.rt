// A type by itself.

ghost use Rattle.std.specs.Prelude.{◌≡◌, ◌<◌, ◌∷◌, ◌^◌, IfOk, length};
ghost use Rattle.cli_sigs.specs.Forms.{one_later, IsPlaced, IsTypeFault, IsThe};

use cli_signature::{SigFault, field_sig, one_reading};
use dc_base::NoMemory;
use std::alloc::Global;

// What stands before the type of a field.
const FIELD: u8 = 0x06;

const BYREF: u8 = 0x10;

// Why a blob is no type by itself, where it is none.
pub(crate) fn type_fault(alloc: Global, blob: &[u8]) -> Result<Option<SigFault>, NoMemory>
    requires { length blob.now < 2 ^ 31 }
    ensures { IfOk result (IsThe (IsTypeFault blob.now)) }
{
    if let [first, ..] = blob
        && *first == BYREF
    {
        return Ok(Some(SigFault::BadElement(0, BYREF)));
    }
    let field = as_field(alloc, blob)?;
    one_reading();
    match field_sig(field.as_slice()) {
        Ok(_) => Ok(None),
        Err(fault) => Ok(Some(earlier(fault))),
    }
}

// The blob of a field of this type.
fn as_field(alloc: Global, blob: &[u8]) -> Result<Vec<u8>, NoMemory>
    ensures { IfOk result (λ field. field.items ≡ 0x06 ∷ blob.now) }
{
    let mut field = vec![in alloc; FIELD]?;
    field.extend_from_slice(blob)?;
    Ok(field)
}

// The fault without the byte before the type.
fn earlier(fault: SigFault) -> SigFault
    requires { IsPlaced fault }
    ensures { one_later result ≡ fault }
{
    match fault {
        SigFault::Truncated(place) => SigFault::Truncated(place - 1),
        SigFault::BadElement(place, byte) => SigFault::BadElement(place - 1, byte),
        SigFault::OutOfProfile(place, byte) => SigFault::OutOfProfile(place - 1, byte),
        SigFault::Trailing(place) => SigFault::Trailing(place - 1),
    }
}
