// Constants of fields, in tables made by hand.

use crate::{Fields, first_bad_constant, fits};
use class_rows::{Access, Kind, TypeRow};
use cli_constants::constants_of;
use cli_metadata::{Metadata, Table};
use dc_base::{Core, NoMemory, Prim_, Seq, Text, Token, Ty, TypeId};
use std::alloc::Global;
use std::test::Fail;

const STRING: TypeId = TypeId(1);

// Five fields, of which the first, the second and the fourth are literals, with an int, a text and a short. The fifth has an
// R8.
const WHOLE: [u8; 164] = [
    0x42, 0x53, 0x4A, 0x42, 0x01, 0x00, 0x01, 0x00, 0x00, 0x00, 0x00, 0x00, 0x04, 0x00, 0x00, 0x00,
    0x76, 0x34, 0x00, 0x00, 0x00, 0x00, 0x02, 0x00, 0x34, 0x00, 0x00, 0x00, 0x58, 0x00, 0x00, 0x00,
    0x23, 0x7E, 0x00, 0x00, 0x8C, 0x00, 0x00, 0x00, 0x18, 0x00, 0x00, 0x00, 0x23, 0x42, 0x6C, 0x6F,
    0x62, 0x00, 0x00, 0x00, 0x00, 0x00, 0x00, 0x00, 0x02, 0x00, 0x00, 0x01, 0x10, 0x08, 0x00, 0x00,
    0x00, 0x00, 0x00, 0x00, 0x00, 0x00, 0x00, 0x00, 0x00, 0x00, 0x00, 0x00, 0x05, 0x00, 0x00, 0x00,
    0x04, 0x00, 0x00, 0x00, 0x56, 0x00, 0x00, 0x00, 0x00, 0x00, 0x56, 0x00, 0x00, 0x00, 0x00, 0x00,
    0x16, 0x00, 0x00, 0x00, 0x00, 0x00, 0x56, 0x00, 0x00, 0x00, 0x00, 0x00, 0x16, 0x00, 0x00, 0x00,
    0x00, 0x00, 0x08, 0x00, 0x04, 0x00, 0x01, 0x00, 0x0E, 0x00, 0x08, 0x00, 0x06, 0x00, 0x06, 0x00,
    0x10, 0x00, 0x09, 0x00, 0x0D, 0x00, 0x14, 0x00, 0x0C, 0x00, 0x00, 0x00, 0x00, 0x04, 0x01, 0x00,
    0x00, 0x00, 0x02, 0x61, 0x00, 0x02, 0x05, 0x00, 0x08, 0x00, 0x00, 0x00, 0x00, 0x00, 0x00, 0x00,
    0x00, 0x00, 0x00, 0x00,
];

fn of(core: Core) -> Ty {
    Ty {
        core,
        arrays: 0,
        lent: false,
    }
}

// An enum over short.
fn enum_row(alloc: Global) -> Result<TypeRow, NoMemory> {
    Ok(TypeRow {
        name: Text::of(alloc, "E")?,
        space: Text::of(alloc, "")?,
        outer: None,
        kind: Kind::Enum(Prim_::I2),
        access: Access::Public,
        base: None,
        bases: Seq::of(Vec::new(alloc)),
        is_abstract: false,
        is_sealed: true,
        own: true,
    })
}

#[test]
fn the_first_field_that_fails(rt: HostRuntime) -> Result<(), Fail> {
    let alloc = rt.alloc();
    let types = vec![in alloc; enum_row(alloc)?]?;
    let int = of(Core::Prim(Prim_::I4));
    let tys = [
        int,
        of(Core::Class(STRING)),
        int,
        of(Core::Enum(TypeId(0))),
        int,
    ];
    // One byte is written, and this row of Field fails.
    let table: [(usize, u8, Option<Token>); 11] = [
        (0, 0x42, Some(Token(0x0400_0005))),
        (132, 0x0C, Some(Token(0x0400_0005))),
        (132, 0x0A, None),
        (134, 0x04, Some(Token(0x0400_0001))),
        (114, 0x09, Some(Token(0x0400_0001))),
        (122, 0x04, Some(Token(0x0400_0001))),
        (141, 0x03, Some(Token(0x0400_0001))),
        (122, 0x10, Some(Token(0x0400_0002))),
        (120, 0x12, Some(Token(0x0400_0002))),
        (124, 0x40, Some(Token(0x0400_0002))),
        (96, 0x56, Some(Token(0x0400_0003))),
    ];
    for (at, byte, due) in table {
        let mut bytes = WHOLE;
        if let Some(changed) = bytes.get_mut(at) {
            *changed = byte;
        }
        let Ok(metadata) = Metadata::of(&bytes) else {
            panic!(rt; "the metadata stands");
        };
        assert!(rt; metadata.rows(Table::Field) == 5);
        let constants = constants_of(alloc, &metadata)?;
        let fields = Fields {
            constants: constants.as_slice(),
            tys: &tys,
            types: types.as_slice(),
            string: STRING,
        };
        let found = first_bad_constant(alloc, &metadata, &fields)?;
        assert_eq!(rt; found, due);
    }
    Ok(())
}

#[test]
fn which_elements_fit(rt: HostRuntime) -> Result<(), Fail> {
    let alloc = rt.alloc();
    let types = vec![in alloc; enum_row(alloc)?]?;
    let int = of(Core::Prim(Prim_::I4));
    let table: [(u32, Ty, bool); 11] = [
        (0x08, int, true),
        (0x09, int, false),
        (0x0E, of(Core::Class(STRING)), true),
        (0x12, of(Core::Class(STRING)), true),
        (0x0E, of(Core::Class(TypeId(2))), false),
        (0x12, of(Core::Class(TypeId(2))), true),
        (0x06, of(Core::Enum(TypeId(0))), true),
        (0x08, of(Core::Enum(TypeId(0))), false),
        (0x06, of(Core::Enum(TypeId(5))), false),
        (0x12, Ty { arrays: 1, ..int }, true),
        (0x08, Ty { lent: true, ..int }, false),
    ];
    for (element, ty, due) in table {
        assert_eq!(rt; fits(element, ty, types.as_slice(), STRING), due);
    }
    Ok(())
}
