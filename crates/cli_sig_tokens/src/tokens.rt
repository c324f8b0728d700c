// The tokens in signatures.

ghost use Rattle.std.specs.Prelude.{◌≡◌, ◌∷◌, IfOk};
ghost use Rattle.cli_signature.specs.declared.kind.Kind.TheVariants.{Field, Locals, Method, Property};
ghost use Rattle.cli_sig_tokens.specs.Tokens.{token_of, tokens_of, AreTokens, AreSpecTokens};

use crate::spec::type_spec;
use cli_metadata::Metadata;
use cli_signature::{MethodSig, RawTy, field_sig, local_sig, method_sig, property_sig};
use dc_base::{NoMemory, Or, Token};
use std::alloc::Global;

/// What the signature of a field names that stands at a place of the heap of blobs.
pub fn field_tokens(alloc: Global, metadata: &Metadata, i: u32) -> Result<Vec<Token>, NoMemory>
    ensures { IfOk result (λ found. AreTokens metadata.now Field i found.items) }
{
    match metadata.blob(i) {
        Ok(blob) => match field_sig(blob) {
            Ok(ty) => tokens(alloc, &[ty]),
            Err(_) => Ok(Vec::new(alloc)),
        },
        Err(_) => Ok(Vec::new(alloc)),
    }
}

/// What the signature of a method names, or of a reference to one: its result first.
pub fn method_tokens(alloc: Global, metadata: &Metadata, i: u32) -> Result<Vec<Token>, NoMemory>
    ensures { IfOk result (λ found. AreTokens metadata.now Method i found.items) }
{
    match metadata.blob(i) {
        Ok(blob) => match method_sig(alloc, blob) {
            Ok(sig) => of_method(alloc, &sig),
            Err(Or::NoMemory) => Err(NoMemory),
            Err(Or::Fault(_)) => Ok(Vec::new(alloc)),
        },
        Err(_) => Ok(Vec::new(alloc)),
    }
}

/// What the signature of a property names: its type first.
pub fn property_tokens(alloc: Global, metadata: &Metadata, i: u32) -> Result<Vec<Token>, NoMemory>
    ensures { IfOk result (λ found. AreTokens metadata.now Property i found.items) }
{
    match metadata.blob(i) {
        Ok(blob) => match property_sig(alloc, blob) {
            Ok(sig) => of_method(alloc, &sig),
            Err(Or::NoMemory) => Err(NoMemory),
            Err(Or::Fault(_)) => Ok(Vec::new(alloc)),
        },
        Err(_) => Ok(Vec::new(alloc)),
    }
}

/// What the signature of locals names.
pub fn local_tokens(alloc: Global, metadata: &Metadata, i: u32) -> Result<Vec<Token>, NoMemory>
    ensures { IfOk result (λ found. AreTokens metadata.now Locals i found.items) }
{
    match metadata.blob(i) {
        Ok(blob) => match local_sig(alloc, blob) {
            Ok(types) => tokens(alloc, types.as_slice()),
            Err(Or::NoMemory) => Err(NoMemory),
            Err(Or::Fault(_)) => Ok(Vec::new(alloc)),
        },
        Err(_) => Ok(Vec::new(alloc)),
    }
}

/// What the type by itself names that stands there.
pub fn spec_tokens(alloc: Global, metadata: &Metadata, i: u32) -> Result<Vec<Token>, NoMemory>
    ensures { IfOk result (λ found. AreSpecTokens metadata.now i found.items) }
{
    match metadata.blob(i) {
        Ok(blob) => match type_spec(alloc, blob)? {
            Some(ty) => tokens(alloc, &[ty]),
            None => Ok(Vec::new(alloc)),
        },
        Err(_) => Ok(Vec::new(alloc)),
    }
}

fn of_method(alloc: Global, sig: &MethodSig) -> Result<Vec<Token>, NoMemory>
    ensures { IfOk result (λ found. found.items ≡ tokens_of (sig.now.result ∷ sig.now.params)) }
{
    let mut found = tokens(alloc, &[sig.result])?;
    let behind = tokens(alloc, sig.params.items())?;
    found.extend_from_slice(behind.as_slice())?;
    Ok(found)
}

fn tokens(alloc: Global, types: &[RawTy]) -> Result<Vec<Token>, NoMemory>
    ensures { IfOk result (λ found. found.items ≡ tokens_of types.now) }
{
    Ok(types.iter().filter_map(|ty| token_of(*ty)).collect(alloc)?)
}

fn token_of(ty: RawTy) -> Option<Token>
    ensures { result ≡ token_of ty }
{
    match ty.element {
        0x11 | 0x12 => Some(ty.token),
        _ => None,
    }
}
