// A type by itself.

ghost use Rattle.std.specs.Prelude.{◌≡◌, ◌<◌, ◌∷◌, ◌^◌, IfOk, length};
ghost use Rattle.cli_signature.specs.Grammar.{IsFieldSig};
ghost use Rattle.cli_signature.specs.Laws.{HasOneDerivation};
ghost use Rattle.cli_sig_tokens.specs.Spec.{IsSpecOf};

use cli_signature::{RawTy, field_sig, one_reading};
use dc_base::NoMemory;
use std::alloc::Global;

// What stands before the type of a field.
const FIELD: u8 = 0x06;

/// The type that a blob is by itself; none where it isn't one.
pub fn type_spec(alloc: Global, blob: &[u8]) -> Result<Option<RawTy>, NoMemory>
    requires { length blob.now < 2 ^ 31 }
    ensures { IfOk result (IsSpecOf blob.now) }
{
    let field = as_field(alloc, blob)?;
    one_reading();
    match field_sig(field.as_slice()) {
        Ok(ty) => Ok(unless_lent(field.as_slice(), blob, ty)),
        Err(_) => Ok(None),
    }
}

// The blob of a field of this type.
fn as_field(alloc: Global, blob: &[u8]) -> Result<Vec<u8>, NoMemory>
    ensures { IfOk result (λ field. field.items ≡ 0x06 ∷ blob.now) }
{
    let mut field = vec![in alloc; FIELD]?;
    field.extend_from_slice(blob)?;
    Ok(field)
}

// The type of a field, unless it is lent.
fn unless_lent(field: &[u8], blob: &[u8], ty: RawTy) -> Option<RawTy>
    requires blob { field.now ≡ 0x06 ∷ blob.now }
    requires read { IsFieldSig field.now ty }
    requires one { HasOneDerivation }
    ensures { IsSpecOf blob.now result }
{
    if ty.lent { None } else { Some(ty) }
}
