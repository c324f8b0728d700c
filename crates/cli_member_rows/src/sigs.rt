// The types that the signatures of members say.

ghost use Rattle.std.specs.Prelude.{◌≡◌, IfOk, false, ◌≤◌, ◌^◌, length};
ghost use Rattle.std.specs.Bool.{OnTrue, OnFalse};
ghost use Rattle.cli_member_rows.specs.Said.{nothing_type, said, param_of, params_of, types_in, no_types, delegate_types, IsFieldType, IsUsual, AreRead, AreMethodTypes};

use class_rows::{Param, Way};
use cli_metadata::Metadata;
use cli_signature::{MethodSig, RawTy, field_sig, method_sig};
use cli_types::{Types, type_said};
use dc_base::{Core, NoMemory, Or, Seq, Ty, TypeId};
use std::alloc::Global;

/// A type that names nothing: that of a member whose signature isn't there or says none.
pub fn nothing_type() -> Ty
    ensures { result ≡ nothing_type }
{
    Ty {
        core: Core::Class(TypeId(u32::MAX)),
        arrays: 0,
        lent: false,
    }
}

// The type that stands in a signature so.
fn said(types: &Types, raw: RawTy) -> Ty
    ensures { result ≡ said types.now raw }
{
    match type_said(types, raw) {
        Some(ty) => ty,
        None => nothing_type(),
    }
}

/// The type of a field with this signature.
pub fn field_type(metadata: &Metadata, types: &Types, signature: u32) -> Ty
    ensures { IsFieldType metadata.now types.now signature result }
{
    match metadata.blob(signature) {
        Ok(blob) => match field_sig(blob) {
            Ok(raw) => said(types, raw),
            Err(_) => nothing_type(),
        },
        Err(_) => nothing_type(),
    }
}

/// Whether a method is called on an instance, its parameters, of which one that is lent is handed over by `ref`, and its result.
#[derive(Debug, Drop)]
pub struct MethodTypes {
    pub instance: bool,
    pub params: Seq<Param>,
    pub result: Ty,
}

// The signature of a constructor of a delegate: an object, and a native integer for the code.
const OF_DELEGATE: [u8; 5] = [0x20, 0x02, 0x01, 0x1C, 0x18];

/// The types of a method with this signature. Where `may_be_usual` the usual one of a constructor of a delegate stands for one
/// of the object alone.
pub fn method_types(
    alloc: Global,
    metadata: &Metadata,
    types: &Types,
    signature: u32,
    may_be_usual: bool,
) -> Result<MethodTypes, NoMemory>
    ensures { IfOk result (AreMethodTypes metadata.now types.now signature may_be_usual) }
{
    match metadata.blob(signature) {
        Ok(blob) => {
            if is_usual(may_be_usual, blob) {
                delegate_types(alloc, types)
            } else {
                read_types(alloc, types, blob)
            }
        }
        Err(_) => Ok(no_types(alloc)),
    }
}

fn is_usual(may_be_usual: bool, blob: &[u8]) -> bool
    ensures yes { OnTrue result (IsUsual may_be_usual blob.now) }
    ensures no { OnFalse result (IsUsual may_be_usual blob.now → ⊥) }
{
    may_be_usual && blob == OF_DELEGATE.as_slice()
}

fn read_types(alloc: Global, types: &Types, blob: &[u8]) -> Result<MethodTypes, NoMemory>
    requires { length blob.now ≤ 2 ^ 31 }
    ensures { IfOk result (AreRead types.now blob.now) }
{
    match method_sig(alloc, blob) {
        Ok(sig) => types_of(alloc, types, &sig),
        Err(Or::NoMemory) => Err(NoMemory),
        Err(Or::Fault(_)) => Ok(no_types(alloc)),
    }
}

fn types_of(alloc: Global, types: &Types, sig: &MethodSig) -> Result<MethodTypes, NoMemory>
    ensures { IfOk result (λ read. read ≡ types_in types.now sig.now) }
{
    Ok(MethodTypes {
        instance: sig.instance,
        params: Seq::of(params_of(alloc, types, sig.params.items())?),
        result: said(types, sig.result),
    })
}

fn params_of(alloc: Global, types: &Types, raws: &[RawTy]) -> Result<Vec<Param>, NoMemory>
    ensures { IfOk result (λ params. params.items ≡ params_of types.now raws.now) }
{
    let mut params = Vec::new(alloc);
    for raw in raws {
        params.push(param(said(types, *raw)))?;
    }
    Ok(params)
}

fn no_types(alloc: Global) -> MethodTypes
    ensures { result ≡ no_types }
{
    MethodTypes {
        instance: false,
        params: Seq::of(Vec::new(alloc)),
        result: nothing_type(),
    }
}

fn delegate_types(alloc: Global, types: &Types) -> Result<MethodTypes, NoMemory>
    ensures { IfOk result (λ read. read ≡ delegate_types types.now) }
{
    let mut params = Vec::new(alloc);
    params.push(param(alone(Core::Class(types.object))))?;
    Ok(MethodTypes {
        instance: true,
        params: Seq::of(params),
        result: alone(Core::Void),
    })
}

fn alone(core: Core) -> Ty
    ensures { result ≡ record { core = core; arrays = 0; lent = false } }
{
    Ty {
        core,
        arrays: 0,
        lent: false,
    }
}

fn param(ty: Ty) -> Param
    ensures { result ≡ param_of ty }
{
    let way = if ty.lent { Way::Ref } else { Way::ByValue };
    Param { ty, way }
}
