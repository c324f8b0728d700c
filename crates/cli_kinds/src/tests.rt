// What types are, by flags and bases.

use crate::{NOTHING, System, base_of, kind_of, system_of, underlying};
use class_rows::{Access, Kind, TypeRow};
use cli_lists::{Lists, rows_fit_tokens};
use cli_metadata::Metadata;
use cli_types::Tokens;
use dc_base::{Prim_, Seq, Text, Token, TypeId};
use std::alloc::Global;
use std::test::Fail;

#[test]
fn flags_and_bases_tell(rt: HostRuntime) {
    let system = System {
        enums: Some(TypeId(1)),
        delegates: Some(TypeId(2)),
        values: Some(TypeId(3)),
    };
    let rows = [
        (0x01, Some(TypeId(0)), Kind::Class),
        (0x81, Some(TypeId(0)), Kind::Class),
        (0x101, Some(TypeId(0)), Kind::Class),
        (0x181, Some(TypeId(0)), Kind::StaticClass),
        (0x101, Some(TypeId(1)), Kind::Enum(Prim_::U1)),
        (0x101, Some(TypeId(2)), Kind::Delegate),
        (0x101, Some(TypeId(3)), Kind::Opaque),
        (0x01, Some(NOTHING), Kind::Class),
        (0xA1, None, Kind::Interface),
    ];
    for (flags, base, kind) in rows {
        assert!(rt; kind_of(system, flags, base, Prim_::U1) == kind);
    }
}

#[test]
fn tokens_tell_bases(rt: HostRuntime) -> Result<(), Fail> {
    let tokens = Tokens {
        types: 2,
        own_from: 1,
        refs: Seq::of(Vec::from_slice(rt.alloc(), &[Some(TypeId(0)), None])?),
    };
    let rows = [
        (None, Some(NOTHING)),
        (Some(Token(0x0200_0000)), None),
        (Some(Token(0x0200_0002)), Some(TypeId(1))),
        (Some(Token(0x0100_0001)), Some(TypeId(0))),
        (Some(Token(0x0100_0002)), Some(NOTHING)),
        (Some(Token(0x1B00_0001)), Some(NOTHING)),
    ];
    for (token, base) in rows {
        assert_eq!(rt; base_of(&tokens, token), base);
    }
    Ok(())
}

fn class(alloc: Global, space: &str, name: &str, own: bool) -> Result<TypeRow, Fail> {
    Ok(TypeRow {
        name: Text::of(alloc, name)?,
        space: Text::of(alloc, space)?,
        outer: None,
        kind: Kind::Class,
        access: Access::Public,
        base: None,
        bases: Seq::of(Vec::new(alloc)),
        is_abstract: false,
        is_sealed: false,
        own,
    })
}

#[test]
fn references_have_the_bases(rt: HostRuntime) -> Result<(), Fail> {
    let alloc = rt.alloc();
    let mut types = Vec::new(alloc);
    types.push(class(alloc, "N", "Enum", false)?)?;
    types.push(class(alloc, "System", "Enum", true)?)?;
    types.push(class(alloc, "System", "Enum", false)?)?;
    types.push(class(alloc, "System", "ValueType", false)?)?;
    let system = system_of(types.as_slice());
    assert_eq!(rt; system.enums, Some(TypeId(2)));
    assert_eq!(rt; system.delegates, None);
    assert_eq!(rt; system.values, Some(TypeId(3)));
    Ok(())
}

// Metadata with the row <Module> of TypeDef and three more types: the first has a static field of a long and an instance field
// of a byte, the second an instance field of an array of bytes, the third none.
const WHOLE: [u8; 170] = [
    0x42, 0x53, 0x4A, 0x42, 0x01, 0x00, 0x01, 0x00, 0x00, 0x00, 0x00, 0x00, 0x04, 0x00, 0x00, 0x00,
    0x76, 0x34, 0x00, 0x00, 0x00, 0x00, 0x02, 0x00, 0x40, 0x00, 0x00, 0x00, 0x6A, 0x00, 0x00, 0x00,
    0x23, 0x7E, 0x00, 0x00, 0x34, 0x00, 0x00, 0x00, 0x0C, 0x00, 0x00, 0x00, 0x23, 0x42, 0x6C, 0x6F,
    0x62, 0x00, 0x00, 0x00, 0x00, 0x02, 0x06, 0x0A, 0x02, 0x06, 0x05, 0x03, 0x06, 0x1D, 0x05, 0x00,
    0x00, 0x00, 0x00, 0x00, 0x02, 0x00, 0x00, 0x01, 0x14, 0x00, 0x00, 0x00, 0x00, 0x00, 0x00, 0x00,
    0x00, 0x00, 0x00, 0x00, 0x00, 0x00, 0x00, 0x00, 0x04, 0x00, 0x00, 0x00, 0x03, 0x00, 0x00, 0x00,
    0x00, 0x00, 0x00, 0x00, 0x00, 0x00, 0x00, 0x00, 0x00, 0x00, 0x01, 0x00, 0x01, 0x00, 0x00, 0x00,
    0x00, 0x00, 0x00, 0x00, 0x00, 0x00, 0x00, 0x00, 0x01, 0x00, 0x01, 0x00, 0x00, 0x00, 0x00, 0x00,
    0x00, 0x00, 0x00, 0x00, 0x00, 0x00, 0x03, 0x00, 0x01, 0x00, 0x00, 0x00, 0x00, 0x00, 0x00, 0x00,
    0x00, 0x00, 0x00, 0x00, 0x04, 0x00, 0x01, 0x00, 0x10, 0x00, 0x00, 0x00, 0x01, 0x00, 0x00, 0x00,
    0x00, 0x00, 0x04, 0x00, 0x00, 0x00, 0x00, 0x00, 0x07, 0x00,
];

#[test]
fn instance_fields_tell_values(rt: HostRuntime) -> Result<(), Fail> {
    let metadata = Metadata::of(&WHOLE)?;
    assert!(rt; rows_fit_tokens(&metadata));
    let lists = Lists::of(rt.alloc(), &metadata)?;
    let rows: [(u32, Prim_); 4] = [
        (1, Prim_::I4),
        (2, Prim_::U1),
        (3, Prim_::I4),
        (4, Prim_::I4),
    ];
    for (n, prim) in rows {
        assert!(rt; 1 <= n);
        assert!(rt; n as usize <= lists.fields.cells.len());
        assert!(rt; underlying(&metadata, &lists.fields, n) == prim);
    }
    Ok(())
}
