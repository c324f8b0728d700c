// Blobs, read and refused.

ghost use Rattle.std.specs.Prelude.{◌≤◌, ◌^◌, length};

use crate::{RawTy, SigFault, field_sig, local_sig, method_sig, one_reading, property_sig};
use dc_base::{Or, Token};
use std::alloc::Global;
use std::process::Abort;
use std::test::Fail;

// BOOLEAN to U8, STRING and OBJECT.
const PLAIN: [u8; 12] = [2, 3, 4, 5, 6, 7, 8, 9, 10, 11, 0x0E, 0x1C];

const LEFT_OUT: [u8; 15] = [
    0x0C, 0x0D, 0x0F, 0x13, 0x14, 0x15, 0x16, 0x18, 0x19, 0x1B, 0x1E, 0x1F, 0x20, 0x41, 0x45,
];

fn ty(element: u8, token: u32, arrays: u8, lent: bool) -> RawTy {
    RawTy {
        element,
        token: Token(token),
        arrays,
        lent,
    }
}

fn field<R: Abort>(rt: &R, blob: &[u8], want: Result<RawTy, SigFault>)
    requires { length blob.now ≤ 2 ^ 31 }
{
    let answer = field_sig(blob);
    assert!(rt; answer == want);
}

// The call on an instance or not, the result's element, and those of the parameters.
fn method<R: Abort>(rt: &R, alloc: Global, blob: &[u8], instance: bool, elements: &[u8])
    requires { length blob.now ≤ 2 ^ 31 }
{
    match method_sig(alloc, blob) {
        Ok(sig) => {
            assert!(rt; sig.instance == instance);
            assert!(rt; elements.first() == Some(&sig.result.element));
            let params = sig.params.items();
            assert!(rt; params.len() + 1 == elements.len());
            assert!(rt;
                params
                    .iter()
                    .zip(elements.iter().skip(1))
                    .all(|(p, e)| p.element == *e)
            );
        }
        Err(_) => assert!(rt; false),
    }
}

fn no_method<R: Abort>(rt: &R, alloc: Global, blob: &[u8], want: SigFault)
    requires { length blob.now ≤ 2 ^ 31 }
{
    let answer = method_sig(alloc, blob);
    assert!(rt; matches!(&answer, Err(Or::Fault(fault)) if *fault == want));
}

fn no_property<R: Abort>(rt: &R, alloc: Global, blob: &[u8], want: SigFault)
    requires { length blob.now ≤ 2 ^ 31 }
{
    let answer = property_sig(alloc, blob);
    assert!(rt; matches!(&answer, Err(Or::Fault(fault)) if *fault == want));
}

#[test]
fn each_element_is_read_or_refused(rt: HostRuntime) {
    let alloc = rt.alloc();
    for e in PLAIN {
        field(&rt, &[6, e], Ok(ty(e, 0, 0, false)));
        method(&rt, alloc, &[0, 1, e, e], false, &[e, e]);
    }
    for e in LEFT_OUT {
        field(&rt, &[6, e], Err(SigFault::OutOfProfile(1, e)));
        no_method(&rt, alloc, &[0, 1, e], SigFault::OutOfProfile(2, e));
        no_method(&rt, alloc, &[0, 1, 1, e], SigFault::OutOfProfile(3, e));
    }
    field(&rt, &[6, 0x17], Err(SigFault::BadElement(1, 0x17)));
}

#[test]
fn void_is_a_whole_result_alone(rt: HostRuntime) {
    let alloc = rt.alloc();
    method(&rt, alloc, &[0x20, 0, 1], true, &[1]);
    field(&rt, &[6, 1], Err(SigFault::BadElement(1, 1)));
    field(&rt, &[6, 0x1D, 1], Err(SigFault::BadElement(2, 1)));
    no_method(&rt, alloc, &[0, 1, 1, 1], SigFault::BadElement(3, 1));
    no_method(&rt, alloc, &[0, 0, 0x1D, 1], SigFault::BadElement(3, 1));
    no_method(&rt, alloc, &[0, 0, 0x10, 1], SigFault::BadElement(3, 1));
    no_property(&rt, alloc, &[8, 0, 1], SigFault::BadElement(2, 1));
}

#[test]
fn marks_and_tokens_are_read(rt: HostRuntime) {
    field(&rt, &[6, 0x10, 0x1D, 0x1D, 8], Ok(ty(8, 0, 2, true)));
    field(&rt, &[6, 0x1D, 0x10, 8], Err(SigFault::BadElement(2, 0x10)));
    field(&rt, &[6, 0x12, 0x09], Ok(ty(0x12, 0x0100_0002, 0, false)));
    field(
        &rt,
        &[6, 0x11, 0x80, 0x80],
        Ok(ty(0x11, 0x0200_0020, 0, false)),
    );
    field(
        &rt,
        &[6, 0x12, 0xC3, 0xFF, 0xFF, 0xFE],
        Ok(ty(0x12, 0x1BFF_FFFF, 0, false)),
    );
    field(
        &rt,
        &[6, 0x12, 0xC4, 0, 0, 0],
        Err(SigFault::BadElement(2, 0xC4)),
    );
    field(&rt, &[6, 0x12, 0x0F], Err(SigFault::BadElement(2, 0x0F)));
    field(
        &rt,
        &[6, 0x12, 0x81, 0x1F],
        Err(SigFault::BadElement(3, 0x1F)),
    );
    field(
        &rt,
        &[6, 0x12, 0x80, 0x03],
        Err(SigFault::BadElement(3, 0x03)),
    );
    field(
        &rt,
        &[6, 0x12, 0xC0, 0x00, 0x3F],
        Err(SigFault::BadElement(4, 0x3F)),
    );
    field(&rt, &[6, 0x12, 0xC0], Err(SigFault::Truncated(3)));
    field(&rt, &[6, 8, 8], Err(SigFault::Trailing(2)));
    field(&rt, &[], Err(SigFault::Truncated(0)));
    field(&rt, &[7, 8], Err(SigFault::BadElement(0, 7)));
    one_reading();
}

#[test]
fn lead_bytes_and_counts(rt: HostRuntime) -> Result<(), Fail> {
    let alloc = rt.alloc();
    method(&rt, alloc, &[0x20, 2, 1, 8, 0x0E], true, &[1, 8, 0x0E]);
    no_method(
        &rt,
        alloc,
        &[0x20, 2, 1, 0x1C, 0x18],
        SigFault::OutOfProfile(4, 0x18),
    );
    no_method(&rt, alloc, &[0x05, 0, 1], SigFault::OutOfProfile(0, 0x05));
    no_method(
        &rt,
        alloc,
        &[0x10, 1, 0, 1],
        SigFault::OutOfProfile(0, 0x10),
    );
    no_method(&rt, alloc, &[0x60, 0, 1], SigFault::OutOfProfile(0, 0x60));
    no_method(&rt, alloc, &[0x08, 0, 8], SigFault::BadElement(0, 0x08));
    no_method(&rt, alloc, &[0, 0x80, 0x7F], SigFault::BadElement(2, 0x7F));
    no_method(
        &rt,
        alloc,
        &[0, 0xC0, 0, 0x40, 0, 1, 8],
        SigFault::Truncated(7),
    );
    no_property(&rt, alloc, &[0, 0, 8], SigFault::BadElement(0, 0));
    no_property(&rt, alloc, &[0x28, 0, 8, 8], SigFault::Trailing(3));
    let property = property_sig(alloc, &[0x28, 1, 0x0E, 8]);
    assert!(&rt; matches!(&property, Ok(sig) if sig.instance && sig.result.element == 0x0E));
    Ok(())
}

#[test]
fn locals_are_counted(rt: HostRuntime) -> Result<(), Fail> {
    let alloc = rt.alloc();
    let mut blob = Vec::from_slice(alloc, &[7, 0x80, 0x80])?;
    blob.resize(131, 8)?;
    let types = local_sig(alloc, blob.as_slice());
    assert!(&rt; matches!(&types, Ok(types) if types.len() == 128));
    let none = local_sig(alloc, &[7, 0x80, 0x80, 8]);
    assert!(&rt; matches!(&none, Err(Or::Fault(SigFault::Truncated(4)))));
    Ok(())
}
