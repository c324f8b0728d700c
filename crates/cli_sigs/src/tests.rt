// The signatures of metadata made by hand.

use crate::{SigCause, SigRefusal, check_signatures, one_first_refusal, sig_rows_fit_tokens};
use cli_metadata::{MetaCause, MetaFault, Metadata};
use cli_signature::SigFault;
use dc_base::{NoMemory, Or, Token};
use std::alloc::Global;
use std::process::Abort;
use std::test::Fail;

// A root with the streams #~ and #Blob, the heap, and the stream of tables up to its rows: one each of Field, MethodDef,
// MemberRef, StandAloneSig, Property and TypeSpec.
const HEAD: [u8; 136] = [
    0x42, 0x53, 0x4A, 0x42, 0x01, 0x00, 0x01, 0x00, 0x00, 0x00, 0x00, 0x00, 0x04, 0x00, 0x00, 0x00,
    0x76, 0x34, 0x00, 0x00, 0x00, 0x00, 0x02, 0x00, 0x58, 0x00, 0x00, 0x00, 0x54, 0x00, 0x00, 0x00,
    0x23, 0x7E, 0x00, 0x00, 0x34, 0x00, 0x00, 0x00, 0x24, 0x00, 0x00, 0x00, 0x23, 0x42, 0x6C, 0x6F,
    0x62, 0x00, 0x00, 0x00, 0x00, 0x02, 0x06, 0x08, 0x03, 0x20, 0x00, 0x01, 0x05, 0x20, 0x02, 0x01,
    0x1C, 0x18, 0x02, 0x07, 0x00, 0x03, 0x08, 0x00, 0x08, 0x02, 0x1D, 0x08, 0x02, 0x10, 0x08, 0x02,
    0x06, 0x14, 0x01, 0x14, 0x7F, 0x00, 0x00, 0x00, 0x00, 0x00, 0x00, 0x00, 0x02, 0x00, 0x00, 0x01,
    0x50, 0x04, 0x82, 0x08, 0x00, 0x00, 0x00, 0x00, 0x00, 0x00, 0x00, 0x00, 0x00, 0x00, 0x00, 0x00,
    0x01, 0x00, 0x00, 0x00, 0x01, 0x00, 0x00, 0x00, 0x01, 0x00, 0x00, 0x00, 0x01, 0x00, 0x00, 0x00,
    0x01, 0x00, 0x00, 0x00, 0x01, 0x00, 0x00, 0x00,
];

// Where the blobs begin: none, an int, void (), the constructor of a delegate, no locals, a property of int, int[] by itself, a
// lent int by itself, a field of an array that is left out, such a type by itself, and one that passes the end.
const NONE: u8 = 0;

const FIELD: u8 = 1;

const METHOD: u8 = 4;

const CONSTRUCTOR: u8 = 8;

const LOCALS: u8 = 14;

const PROPERTY: u8 = 17;

const ARRAY: u8 = 21;

const LENT: u8 = 24;

const LEFT_OUT: u8 = 27;

const LEFT_OUT_TYPE: u8 = 30;

const BROKEN: u8 = 32;

// Metadata whose rows have these signatures, table by table.
fn metadata_with(alloc: Global, places: [u8; 6]) -> Result<Vec<u8>, NoMemory> {
    let mut bytes = Vec::from_slice(alloc, &HEAD)?;
    bytes.extend_from_slice(&[0, 0, 0, 0, places[0], 0])?;
    bytes.extend_from_slice(&[0; 10])?;
    bytes.extend_from_slice(&[places[1], 0, 0, 0])?;
    bytes.extend_from_slice(&[0, 0, 0, 0, places[2], 0])?;
    bytes.extend_from_slice(&[places[3], 0])?;
    bytes.extend_from_slice(&[0, 0, 0, 0, places[4], 0])?;
    bytes.extend_from_slice(&[places[5], 0])?;
    Ok(bytes)
}

// What refuses these places, where the rows of TypeSpec, MemberRef and StandAloneSig are reached or not, and those of MethodDef and
// MemberRef are constructors of delegates or not.
fn refusal(
    rt: &impl Abort,
    alloc: Global,
    places: [u8; 6],
    reached: bool,
    constructors: bool,
) -> Result<Option<SigRefusal>, Fail> {
    let bytes = metadata_with(alloc, places)?;
    assert!(rt; bytes.len() < 0x1000);
    let metadata = Metadata::of(bytes.as_slice())?;
    assert!(rt; sig_rows_fit_tokens(&metadata));
    match check_signatures(
        alloc,
        &metadata,
        &[reached; 3],
        &[constructors],
        &[constructors],
    ) {
        Ok(()) => Ok(None),
        Err(Or::Fault(refusal)) => Ok(Some(refusal)),
        Err(Or::NoMemory) => Err(Fail::from(NoMemory)),
    }
}

fn sig(token: u32, fault: SigFault) -> Option<SigRefusal> {
    Some(SigRefusal {
        token: Token(token),
        cause: SigCause::Sig(fault),
    })
}

const RIGHT: [u8; 6] = [FIELD, METHOD, FIELD, LOCALS, PROPERTY, ARRAY];

#[test]
fn first_signature_that_fails(rt: HostRuntime) -> Result<(), Fail> {
    let alloc = rt.alloc();
    let no_blob = Some(SigRefusal {
        token: Token(0x1700_0001),
        cause: SigCause::Meta(MetaFault {
            cause: MetaCause::BadBlob,
            place: u32::from(BROKEN),
        }),
    });
    let table: [([u8; 6], Option<SigRefusal>); 9] = [
        (RIGHT, None),
        ([FIELD, METHOD, METHOD, LOCALS, PROPERTY, ARRAY], None),
        ([FIELD, METHOD, FIELD, LOCALS, BROKEN, LENT], no_blob),
        (
            [LEFT_OUT, LENT, LEFT_OUT, FIELD, FIELD, LENT],
            sig(0x0400_0001, SigFault::OutOfProfile(1, 0x14)),
        ),
        (
            [FIELD, CONSTRUCTOR, CONSTRUCTOR, LOCALS, PROPERTY, LENT],
            sig(0x0600_0001, SigFault::OutOfProfile(4, 0x18)),
        ),
        (
            [FIELD, METHOD, LEFT_OUT, LOCALS, PROPERTY, LENT],
            sig(0x0A00_0001, SigFault::OutOfProfile(1, 0x14)),
        ),
        (
            [FIELD, METHOD, FIELD, NONE, PROPERTY, LENT],
            sig(0x1100_0001, SigFault::Truncated(0)),
        ),
        (
            [FIELD, METHOD, FIELD, LOCALS, PROPERTY, LENT],
            sig(0x1B00_0001, SigFault::BadElement(0, 0x10)),
        ),
        (
            [FIELD, METHOD, FIELD, LOCALS, PROPERTY, LEFT_OUT_TYPE],
            sig(0x1B00_0001, SigFault::OutOfProfile(0, 0x14)),
        ),
    ];
    for (places, due) in table {
        assert!(rt; refusal(&rt, alloc, places, true, false)? == due);
    }
    let unreached = [FIELD, METHOD, LENT, LENT, PROPERTY, LENT];
    assert!(rt; refusal(&rt, alloc, unreached, false, false)?.is_none());
    let delegates = [FIELD, CONSTRUCTOR, CONSTRUCTOR, LOCALS, PROPERTY, ARRAY];
    assert!(rt; refusal(&rt, alloc, delegates, true, true)?.is_none());
    assert!(rt; refusal(&rt, alloc, RIGHT, true, true)?.is_none());
    one_first_refusal();
    Ok(())
}
