// What is wrong with a blob as a signature.

ghost use Rattle.std.specs.Prelude.{◌≡◌, ◌≢◌, ◌<◌, ◌^◌, IfOk, length};
ghost use Rattle.std.specs.Bool.{OnTrue, OnFalse};
ghost use Rattle.cli_signature.specs.declared.kind.Kind.TheVariants as kinds;
ghost use Rattle.cli_signature.specs.Grammar.{IsBlob};
ghost use Rattle.cli_signature.specs.Fault.{IsSigFault};
ghost use Rattle.cli_sigs.specs.Forms.{delegate_constructor, member_kind, IsFault, IsCause, IsThe};

use crate::SigCause;
use crate::form::Form;
use crate::single::type_fault;
use cli_metadata::Metadata;
use cli_signature::{SigFault, field_sig, local_sig, method_sig, one_reading, property_sig};
use dc_base::{NoMemory, Or, one_number_begins};
use std::alloc::Global;

// Why no signature of a form stands at a place of the heap of blobs, where none does.
pub(crate) fn cause_at(
    alloc: Global,
    metadata: &Metadata,
    form: Form,
    i: u32,
) -> Result<Option<SigCause>, NoMemory>
    ensures { IfOk result (IsThe (IsCause metadata.now form i)) }
{
    one_number_begins();
    match metadata.blob(i) {
        Ok(blob) => match fault_of(alloc, form, blob)? {
            Some(fault) => Ok(Some(SigCause::Sig(fault))),
            None => Ok(None),
        },
        Err(fault) => Ok(Some(SigCause::Meta(fault))),
    }
}

// Why a blob is no signature of a form, where it is none.
fn fault_of(alloc: Global, form: Form, blob: &[u8]) -> Result<Option<SigFault>, NoMemory>
    requires { length blob.now < 2 ^ 31 }
    ensures { IfOk result (IsThe (IsFault form blob.now)) }
{
    match form {
        Form::Field => Ok(field_fault(blob)),
        Form::Method => method_fault(alloc, blob),
        Form::Constructor if is_delegate_constructor(blob) => Ok(None),
        Form::Constructor => method_fault(alloc, blob),
        Form::Member => member_fault(alloc, blob),
        Form::NamedConstructor if is_delegate_constructor(blob) => Ok(None),
        Form::NamedConstructor => member_fault(alloc, blob),
        Form::Locals => local_fault(alloc, blob),
        Form::Property => property_fault(alloc, blob),
        Form::Type_ => type_fault(alloc, blob),
    }
}

fn is_delegate_constructor(blob: &[u8]) -> bool
    ensures yes { OnTrue result (blob.now ≡ delegate_constructor) }
    ensures no { OnFalse result (blob.now ≢ delegate_constructor) }
{
    blob == [0x20, 0x02, 0x01, 0x1C, 0x18].as_slice()
}

fn member_fault(alloc: Global, blob: &[u8]) -> Result<Option<SigFault>, NoMemory>
    requires { length blob.now < 2 ^ 31 }
    ensures { IfOk result (IsThe (IsSigFault (IsBlob (member_kind blob.now)) blob.now)) }
{
    if is_field(blob) {
        Ok(field_fault(blob))
    } else {
        method_fault(alloc, blob)
    }
}

fn is_field(blob: &[u8]) -> bool
    ensures yes { OnTrue result (member_kind blob.now ≡ kinds.Field) }
    ensures no { OnFalse result (member_kind blob.now ≡ kinds.Method) }
{
    match blob {
        [first, ..] => *first == 0x06,
        _ => false,
    }
}

fn field_fault(blob: &[u8]) -> Option<SigFault>
    requires { length blob.now < 2 ^ 31 }
    ensures { IsThe (IsSigFault (IsBlob kinds.Field) blob.now) result }
{
    one_reading();
    match field_sig(blob) {
        Ok(_) => None,
        Err(fault) => Some(fault),
    }
}

fn method_fault(alloc: Global, blob: &[u8]) -> Result<Option<SigFault>, NoMemory>
    requires { length blob.now < 2 ^ 31 }
    ensures { IfOk result (IsThe (IsSigFault (IsBlob kinds.Method) blob.now)) }
{
    one_reading();
    match method_sig(alloc, blob) {
        Ok(_) => Ok(None),
        Err(Or::NoMemory) => Err(NoMemory),
        Err(Or::Fault(fault)) => Ok(Some(fault)),
    }
}

fn property_fault(alloc: Global, blob: &[u8]) -> Result<Option<SigFault>, NoMemory>
    requires { length blob.now < 2 ^ 31 }
    ensures { IfOk result (IsThe (IsSigFault (IsBlob kinds.Property) blob.now)) }
{
    one_reading();
    match property_sig(alloc, blob) {
        Ok(_) => Ok(None),
        Err(Or::NoMemory) => Err(NoMemory),
        Err(Or::Fault(fault)) => Ok(Some(fault)),
    }
}

fn local_fault(alloc: Global, blob: &[u8]) -> Result<Option<SigFault>, NoMemory>
    requires { length blob.now < 2 ^ 31 }
    ensures { IfOk result (IsThe (IsSigFault (IsBlob kinds.Locals) blob.now)) }
{
    one_reading();
    match local_sig(alloc, blob) {
        Ok(_) => Ok(None),
        Err(Or::NoMemory) => Err(NoMemory),
        Err(Or::Fault(fault)) => Ok(Some(fault)),
    }
}
