// Signatures over a few types.

use crate::{Tokens, Types, all_types, type_said};
use cli_signature::{RawTy, field_sig};
use dc_base::{Core, Prim_, Seq, Token, Ty, TypeId};
use std::alloc::Global;
use std::test::Fail;

// A class, a primitive type, a struct and an enum of the references, and an own class; rows of TypeRef for the first four, one
// that means none.
fn types(alloc: Global) -> Result<Types, Fail> {
    let cores = [
        Core::Class(TypeId(0)),
        Core::Prim(Prim_::I4),
        Core::Value(TypeId(2)),
        Core::Enum(TypeId(3)),
        Core::Class(TypeId(4)),
    ];
    let refs = [
        Some(TypeId(0)),
        Some(TypeId(1)),
        Some(TypeId(2)),
        Some(TypeId(3)),
        None,
    ];
    Ok(Types {
        tokens: Tokens {
            types: 5,
            own_from: 4,
            refs: Seq::of(Vec::from_slice(alloc, &refs)?),
        },
        cores: Seq::of(Vec::from_slice(alloc, &cores)?),
        object: TypeId(0),
        string: TypeId(7),
    })
}

fn ty(core: Core, arrays: u8, lent: bool) -> Option<Ty> {
    Some(Ty { core, arrays, lent })
}

#[test]
fn blobs_say_types(rt: HostRuntime) -> Result<(), Fail> {
    let types = types(rt.alloc())?;
    let rows: [(&[u8], Option<Ty>); 14] = [
        (&[6, 0x08], ty(Core::Prim(Prim_::I4), 0, false)),
        (
            &[6, 0x1D, 0x1D, 0x02],
            ty(Core::Prim(Prim_::Bool), 2, false),
        ),
        (&[6, 0x10, 0x0E], ty(Core::Class(TypeId(7)), 0, true)),
        (&[6, 0x1C], ty(Core::Class(TypeId(0)), 0, false)),
        (&[6, 0x12, 0x05], ty(Core::Class(TypeId(0)), 0, false)),
        (&[6, 0x11, 0x05], None),
        (&[6, 0x11, 0x09], ty(Core::Prim(Prim_::I4), 0, false)),
        (&[6, 0x12, 0x09], None),
        (&[6, 0x1D, 0x11, 0x0D], ty(Core::Value(TypeId(2)), 1, false)),
        (&[6, 0x11, 0x11], ty(Core::Enum(TypeId(3)), 0, false)),
        (&[6, 0x12, 0x15], None),
        (&[6, 0x12, 0x19], None),
        (&[6, 0x12, 0x04], None),
        (&[6, 0x12, 0x08], ty(Core::Class(TypeId(4)), 0, false)),
    ];
    for (blob, due) in rows {
        match field_sig(blob) {
            Ok(raw) => assert!(rt; type_said(&types, raw) == due),
            Err(_) => assert!(rt; false),
        }
    }
    assert!(rt; types.tokens.type_named(Token(0x0200_0003)).is_none());
    assert!(rt; types.core_named(Token(0x1B00_0001)).is_none());
    Ok(())
}

#[test]
fn all_or_none(rt: HostRuntime) -> Result<(), Fail> {
    let types = types(rt.alloc())?;
    let int = RawTy {
        element: 0x08,
        token: Token(0),
        arrays: 0,
        lent: false,
    };
    let nothing = RawTy {
        element: 0x12,
        token: Token(0x0100_0005),
        arrays: 0,
        lent: false,
    };
    match all_types(rt.alloc(), &types, &[int, int])? {
        Some(found) => assert_eq!(rt; found.len(), 2),
        None => assert!(rt; false),
    }
    assert!(rt; all_types(rt.alloc(), &types, &[int, nothing])?.is_none());
    Ok(())
}
