// Whole signatures.

ghost use Rattle.std.specs.Prelude.{◌≡◌, ◌≢◌, ◌≤◌, ◌^◌, ◌↔◌, IsTrue, length, IfOk, IfErr};
ghost use Rattle.dc_causes.specs.Answer.{IsRefused};
ghost use Rattle.cli_signature.specs.declared.kind.Kind.TheVariants.{Field, Locals, Method, Property};
ghost use Rattle.cli_signature.specs.Grammar.{IsBlob, IsFieldSig, IsLocalSig, IsMethodSig};
ghost use Rattle.cli_signature.specs.Fault.{IsSigFault, IsLeadLeftOut};
ghost use Rattle.cli_signature.specs.Reading.{ReadsLead, Done, results_of};

use crate::kind::{Kind, Slot};
use crate::number::number;
use crate::ty::ty;
use crate::{MethodSig, RawTy, SigFault};
use dc_base::{Or, Seq};
use std::alloc::Global;

/// The type of a field (ECMA-335 II.23.2.4). Takes no memory.
pub fn field_sig(blob: &[u8]) -> Result<RawTy, SigFault>
    requires { length blob.now ≤ 2 ^ 31 }
    ensures read { IfOk result (IsFieldSig blob.now) }
    ensures fault { IfErr result (IsSigFault (IsBlob Field) blob.now) }
{
    lead(blob, Kind::Field)?;
    let (found, after) = ty(blob, 1, Slot::Whole)?;
    if after < blob.len() {
        return Err(SigFault::Trailing(after as u32));
    }
    Ok(found)
}

/// The types of locals (ECMA-335 II.23.2.6).
pub fn local_sig(alloc: Global, blob: &[u8]) -> Result<Vec<RawTy>, Or<SigFault>>
    requires { length blob.now ≤ 2 ^ 31 }
    ensures read { IfOk result (λ types. IsLocalSig blob.now types.items) }
    ensures fault { IfErr result (IsRefused (IsSigFault (IsBlob Locals) blob.now)) }
{
    let (_, types) = counted(alloc, blob, Kind::Locals)?;
    Ok(types)
}

/// The signature of a method, as a MethodDef or a MemberRef has it (ECMA-335 II.23.2.1, II.23.2.2).
pub fn method_sig(alloc: Global, blob: &[u8]) -> Result<MethodSig, Or<SigFault>>
    requires { length blob.now ≤ 2 ^ 31 }
    ensures read { IfOk result (IsMethodSig Method blob.now) }
    ensures fault { IfErr result (IsRefused (IsSigFault (IsBlob Method) blob.now)) }
{
    with_result(alloc, blob, Kind::Method)
}

/// The signature of a property, whose type is the result (ECMA-335 II.23.2.5).
pub fn property_sig(alloc: Global, blob: &[u8]) -> Result<MethodSig, Or<SigFault>>
    requires { length blob.now ≤ 2 ^ 31 }
    ensures read { IfOk result (IsMethodSig Property blob.now) }
    ensures fault { IfErr result (IsRefused (IsSigFault (IsBlob Property) blob.now)) }
{
    with_result(alloc, blob, Kind::Property)
}

// The signature of a method or a property.
fn with_result(alloc: Global, blob: &[u8], kind: Kind) -> Result<MethodSig, Or<SigFault>>
    requires short { length blob.now ≤ 2 ^ 31 }
    requires kind { results_of kind ≡ 1 }
    ensures read { IfOk result (IsMethodSig kind blob.now) }
    ensures fault { IfErr result (IsRefused (IsSigFault (IsBlob kind) blob.now)) }
{
    let (lead, mut types) = counted(alloc, blob, kind)?;
    let result = types.remove(0);
    Ok(MethodSig {
        instance: lead / 0x20 % 2 == 1,
        params: Seq::of(types),
        result,
    })
}

// The lead byte of a signature with a count, and its types, a result first.
fn counted(alloc: Global, blob: &[u8], kind: Kind) -> Result<(u8, Vec<RawTy>), Or<SigFault>>
    requires short { length blob.now ≤ 2 ^ 31 }
    requires kind { kind ≢ Field }
    ensures read { IfOk result (λ found. Done kind found.0 blob.now found.1.items) }
    ensures many { IfOk result (λ found. results_of kind ≤ length found.1.items) }
    ensures fault { IfErr result (IsRefused (IsSigFault (IsBlob kind) blob.now)) }
{
    let lead = lead(blob, kind)?;
    let (count, start) = number(blob, 1, false)?;
    let total = count as usize + kind.results();
    let mut at = start;
    let mut slot = kind.first_slot();
    let mut types = Vec::new(alloc);
    while types.len() < total {
        let (found, after) = ty(blob, at, slot)?;
        types.push(found)?;
        at = after;
        slot = Slot::Whole;
    }
    if at < blob.len() {
        return Err(Or::Fault(SigFault::Trailing(at as u32)));
    }
    Ok((lead, types))
}

// The lead byte.
fn lead(blob: &[u8], kind: Kind) -> Result<u8, SigFault>
    ensures read { IfOk result (ReadsLead kind blob.now) }
    ensures fault { IfErr result (IsSigFault (IsBlob kind) blob.now) }
{
    let [first, ..] = blob else {
        return Err(SigFault::Truncated(0));
    };
    let first = *first;
    if kind.is_lead(first) {
        return Ok(first);
    }
    if is_left_out(first) {
        return Err(SigFault::OutOfProfile(0, first));
    }
    Err(SigFault::BadElement(0, first))
}

// Whether a lead byte is one of the standard that isn't taken.
fn is_left_out(first: u8) -> bool
    ensures { IsTrue result ↔ IsLeadLeftOut first }
{
    first % 16 == 5 || first / 0x10 % 2 == 1 || first / 0x40 % 2 == 1
}
