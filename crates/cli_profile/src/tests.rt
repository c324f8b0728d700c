// Metadata made of rows, which meet the conditions or don't.

use crate::{check_rows, one_first_failure};
use cli_conditions::{Condition, Unmet};
use cli_lists::{Lists, rows_fit_tokens};
use cli_metadata::{Metadata, Table};
use dc_base::{NoMemory, Token};
use std::alloc::Global;
use std::process::Abort;
use std::test::Fail;

// A root with the streams #~ of 512 bytes, #Strings and #Blob, the heaps, and the stream of tables up to its mask. The
// strings are "System" at 1 and "MulticastDelegate" at 8; the blobs an array's signature at 1, another one's at 4 and an
// empty one at 6.
const HEAD: [u8; 116] = [
    0x42, 0x53, 0x4A, 0x42, 0x01, 0x00, 0x01, 0x00, 0x00, 0x00, 0x00, 0x00, 0x04, 0x00, 0x00, 0x00,
    0x76, 0x34, 0x00, 0x00, 0x00, 0x00, 0x03, 0x00, 0x6C, 0x00, 0x00, 0x00, 0x00, 0x02, 0x00, 0x00,
    0x23, 0x7E, 0x00, 0x00, 0x48, 0x00, 0x00, 0x00, 0x1C, 0x00, 0x00, 0x00, 0x23, 0x53, 0x74, 0x72,
    0x69, 0x6E, 0x67, 0x73, 0x00, 0x00, 0x00, 0x00, 0x64, 0x00, 0x00, 0x00, 0x08, 0x00, 0x00, 0x00,
    0x23, 0x42, 0x6C, 0x6F, 0x62, 0x00, 0x00, 0x00, 0x00, 0x53, 0x79, 0x73, 0x74, 0x65, 0x6D, 0x00,
    0x4D, 0x75, 0x6C, 0x74, 0x69, 0x63, 0x61, 0x73, 0x74, 0x44, 0x65, 0x6C, 0x65, 0x67, 0x61, 0x74,
    0x65, 0x00, 0x00, 0x00, 0x00, 0x02, 0x1D, 0x08, 0x01, 0x08, 0x00, 0x00, 0x00, 0x00, 0x00, 0x00,
    0x02, 0x00, 0x00, 0x01,
];

// Where the stream of tables ends.
const END: usize = 620;

// A table's rows, side by side.
#[derive(Clone, Copy)]
struct Filled<'a> {
    table: Table,
    count: u32,
    bytes: &'a [u8],
}

fn of_rows(table: Table, count: u32, bytes: &[u8]) -> Filled<'_> {
    Filled {
        table,
        count,
        bytes,
    }
}

// Metadata with these rows.
fn metadata_with(alloc: Global, tables: &[Filled]) -> Result<Vec<u8>, NoMemory> {
    let mut bytes = Vec::from_slice(alloc, &HEAD)?;
    let mut mask: u64 = 0;
    for rows in tables {
        mask |= 1 << rows.table.number();
    }
    bytes.extend_from_slice(&mask.to_le_bytes())?;
    bytes.extend_from_slice(&[0; 8])?;
    for number in 0..45 {
        for rows in tables {
            if rows.table.number() == number {
                bytes.extend_from_slice(&rows.count.to_le_bytes())?;
            }
        }
    }
    for number in 0..45 {
        for rows in tables {
            if rows.table.number() == number {
                bytes.extend_from_slice(rows.bytes)?;
            }
        }
    }
    for _ in bytes.len()..END {
        bytes.push(0)?;
    }
    Ok(bytes)
}

// What these rows don't meet.
fn unmet(
    rt: &impl Abort,
    alloc: Global,
    tables: &[Filled],
    reached: &[bool],
) -> Result<Option<Unmet>, Fail> {
    let bytes = metadata_with(alloc, tables)?;
    assert!(rt; bytes.len() == END);
    let metadata = Metadata::of(bytes.as_slice())?;
    assert!(rt; rows_fit_tokens(&metadata));
    assert!(rt; metadata.rows(Table::TypeSpec) < 0x100_0000);
    let lists = Lists::of(alloc, &metadata)?;
    match check_rows(&metadata, &lists, reached) {
        Ok(()) => Ok(None),
        Err(unmet) => Ok(Some(unmet)),
    }
}

const ZERO: [u8; 22] = [0; 22];

// The module's own type without members, and a type with all fields and methods.
const TYPES: Filled<'static> = Filled {
    table: Table::TypeDef,
    count: 2,
    bytes: &[
        0, 0, 0, 0, 0, 0, 0, 0, 0, 0, 1, 0, 1, 0, //
        0, 0, 0, 0, 0, 0, 0, 0, 0, 0, 1, 0, 1, 0,
    ],
};

const ASSEMBLY: Filled<'static> = Filled {
    table: Table::Assembly,
    count: 1,
    bytes: &[0; 22],
};

// What is due: a condition and the token of a row.
fn due(condition: Condition, token: u32) -> Option<Unmet> {
    Some(Unmet {
        condition,
        token: Token(token),
    })
}

// A table, a row of zeros of it, and the condition and the token that are due.
const UNMET: [(Table, &[u8], Condition, u32); 14] = [
    (
        Table::FieldMarshal,
        &[0; 4],
        Condition::Marshal,
        0x0D00_0001,
    ),
    (
        Table::DeclSecurity,
        &[0; 6],
        Condition::Security,
        0x0E00_0001,
    ),
    (Table::ClassLayout, &[0; 8], Condition::Layout, 0x0F00_0001),
    (Table::FieldLayout, &[0; 6], Condition::Layout, 0x1000_0001),
    (Table::EventMap, &[0; 4], Condition::Event, 0x1200_0001),
    (Table::Event, &[0; 6], Condition::Event, 0x1400_0001),
    (Table::ModuleRef, &[0; 2], Condition::Modules, 0x1A00_0001),
    (Table::ImplMap, &[0; 8], Condition::Native, 0x1C00_0001),
    (Table::FieldRva, &[0; 6], Condition::FieldData, 0x1D00_0001),
    (Table::File, &[0; 8], Condition::Modules, 0x2600_0001),
    (
        Table::ExportedType,
        &[0; 14],
        Condition::Modules,
        0x2700_0001,
    ),
    (
        Table::GenericParam,
        &[0; 8],
        Condition::Generic,
        0x2A00_0001,
    ),
    (Table::MethodSpec, &[0; 4], Condition::Generic, 0x2B00_0001),
    (
        Table::GenericParamConstraint,
        &[0; 4],
        Condition::Generic,
        0x2C00_0001,
    ),
];

// A table, and a row of it that meets all conditions.
const MET: [(Table, &[u8]); 2] = [
    (Table::CustomAttribute, &[0; 6]),
    (Table::ManifestResource, &[0; 12]),
];

#[test]
fn a_row_of_these_tables_is_unmet(rt: HostRuntime) -> Result<(), Fail> {
    let alloc = rt.alloc();
    assert_eq!(rt; unmet(&rt, alloc, &[TYPES, ASSEMBLY], &[])?, None);
    for (table, bytes, condition, token) in UNMET {
        let tables = [TYPES, ASSEMBLY, of_rows(table, 1, bytes)];
        assert_eq!(rt; unmet(&rt, alloc, &tables, &[])?, due(condition, token));
    }
    for (table, bytes) in MET {
        let tables = [TYPES, ASSEMBLY, of_rows(table, 1, bytes)];
        assert_eq!(rt; unmet(&rt, alloc, &tables, &[])?, None);
    }
    Ok(())
}

#[test]
fn one_assembly_is_wanted(rt: HostRuntime) -> Result<(), Fail> {
    let alloc = rt.alloc();
    let two = of_rows(Table::Assembly, 2, &[0; 44]);
    let missing = due(Condition::Modules, 0x2000_0001);
    assert_eq!(rt; unmet(&rt, alloc, &[TYPES], &[])?, missing);
    let second = due(Condition::Modules, 0x2000_0002);
    assert_eq!(rt; unmet(&rt, alloc, &[TYPES, two], &[])?, second);
    Ok(())
}

// A type whose base is row 1 of TypeRef.
const DERIVED: Filled<'static> = Filled {
    table: Table::TypeDef,
    count: 2,
    bytes: &[
        0, 0, 0, 0, 0, 0, 0, 0, 0, 0, 1, 0, 1, 0, //
        0, 0, 0, 0, 0, 0, 0, 0, 5, 0, 1, 0, 1, 0,
    ],
};

// A type whose base is row 3 of TypeDef, which is System.MulticastDelegate.
const OWN: Filled<'static> = Filled {
    table: Table::TypeDef,
    count: 3,
    bytes: &[
        0, 0, 0, 0, 0, 0, 0, 0, 0, 0, 1, 0, 1, 0, //
        0, 0, 0, 0, 0, 0, 0, 0, 12, 0, 1, 0, 1, 0, //
        0, 0, 0, 0, 8, 0, 1, 0, 0, 0, 1, 0, 2, 0,
    ],
};

#[test]
fn methods_are_plain_unless_a_delegate_has_them(rt: HostRuntime) -> Result<(), Fail> {
    let alloc = rt.alloc();
    let native = due(Condition::Native, 0x0600_0001);
    let rows = [
        (0x0001, native),
        (0x0002, native),
        (0x0004, native),
        (0x0010, native),
        (0x0020, native),
        (0x1000, native),
        (0x03C8, None),
    ];
    // A reference to System.MulticastDelegate, and ones with the namespace or the name of another type.
    let delegate = of_rows(Table::TypeRef, 1, &[0, 0, 8, 0, 1, 0]);
    let other_space = of_rows(Table::TypeRef, 1, &[0, 0, 8, 0, 2, 0]);
    let other_name = of_rows(Table::TypeRef, 1, &[0, 0, 9, 0, 1, 0]);
    for (flags, wanted) in rows {
        let [low, high] = u16::to_le_bytes(flags);
        let bytes = [0, 0, 0, 0, low, high, 0, 0, 0, 0, 0, 0, 1, 0];
        let method = of_rows(Table::MethodDef, 1, &bytes);
        let cases: [(&[Filled], Option<Unmet>); 6] = [
            (&[TYPES, ASSEMBLY, method], wanted),
            (&[DERIVED, delegate, ASSEMBLY, method], None),
            (&[DERIVED, other_space, ASSEMBLY, method], wanted),
            (&[DERIVED, other_name, ASSEMBLY, method], wanted),
            (&[DERIVED, ASSEMBLY, method], wanted),
            (&[OWN, ASSEMBLY, method], None),
        ];
        for (tables, wanted) in cases {
            assert_eq!(rt; unmet(&rt, alloc, tables, &[])?, wanted);
        }
    }
    Ok(())
}

#[test]
fn types_by_signature_that_are_reached_are_arrays(rt: HostRuntime) -> Result<(), Fail> {
    let alloc = rt.alloc();
    // The signature of an array, one of a primitive type, and an empty one.
    let specs = of_rows(Table::TypeSpec, 3, &[1, 0, 4, 0, 6, 0]);
    let rows: [(&[bool], Option<Unmet>); 5] = [
        (&[], None),
        (&[true], None),
        (&[true, false, false], None),
        (&[true, true, true], due(Condition::TypeSpec, 0x1B00_0002)),
        (&[false, false, true], due(Condition::TypeSpec, 0x1B00_0003)),
    ];
    for (reached, wanted) in rows {
        assert_eq!(rt;
            unmet(&rt, alloc, &[TYPES, ASSEMBLY, specs], reached)?,
            wanted
        );
    }
    Ok(())
}

// Two methods: of the first the code is plain, that of the second is native.
const METHODS: Filled<'static> = Filled {
    table: Table::MethodDef,
    count: 2,
    bytes: &[
        0, 0, 0, 0, 0, 0, 0, 0, 0, 0, 0, 0, 1, 0, //
        0, 0, 0, 0, 1, 0, 0, 0, 0, 0, 0, 0, 1, 0,
    ],
};

// Types, outside of which stand a field and the first method.
const FIELD_OUTSIDE: Filled<'static> = Filled {
    table: Table::TypeDef,
    count: 2,
    bytes: &[
        0, 0, 0, 0, 0, 0, 0, 0, 0, 0, 1, 0, 1, 0, //
        0, 0, 0, 0, 0, 0, 0, 0, 0, 0, 2, 0, 2, 0,
    ],
};

// Types, outside of which stands the first method alone.
const METHOD_OUTSIDE: Filled<'static> = Filled {
    table: Table::TypeDef,
    count: 2,
    bytes: &[
        0, 0, 0, 0, 0, 0, 0, 0, 0, 0, 1, 0, 1, 0, //
        0, 0, 0, 0, 0, 0, 0, 0, 0, 0, 1, 0, 2, 0,
    ],
};

// The module's own type, which has the second method.
const SECOND_METHOD: Filled<'static> = Filled {
    table: Table::TypeDef,
    count: 1,
    bytes: &[0, 0, 0, 0, 0, 0, 0, 0, 0, 0, 1, 0, 2, 0],
};

#[test]
fn first_failing_member_counts(rt: HostRuntime) -> Result<(), Fail> {
    let alloc = rt.alloc();
    let field = of_rows(Table::Field, 1, &ZERO[..6]);
    let event = of_rows(Table::Event, 1, &ZERO[..6]);
    let in_module = due(Condition::ModuleMember, 0x0400_0001);
    let method_in_module = due(Condition::ModuleMember, 0x0600_0001);
    let native = due(Condition::Native, 0x0600_0002);
    let rows: [(&[Filled], Option<Unmet>); 4] = [
        (&[FIELD_OUTSIDE, field, METHODS], in_module),
        (&[METHOD_OUTSIDE, METHODS], method_in_module),
        (&[SECOND_METHOD, METHODS], native),
        (&[TYPES, METHODS, event], native),
    ];
    for (tables, wanted) in rows {
        assert_eq!(rt; unmet(&rt, alloc, tables, &[])?, wanted);
    }
    Ok(())
}

#[test]
fn first_failing_table_counts(rt: HostRuntime) -> Result<(), Fail> {
    let alloc = rt.alloc();
    let field = of_rows(Table::Field, 1, &ZERO[..6]);
    let marshal = of_rows(Table::FieldMarshal, 1, &ZERO[..4]);
    let security = of_rows(Table::DeclSecurity, 1, &ZERO[..6]);
    let module = of_rows(Table::ModuleRef, 1, &ZERO[..2]);
    let import = of_rows(Table::ImplMap, 1, &ZERO[..8]);
    let file = of_rows(Table::File, 1, &ZERO[..8]);
    let generic = of_rows(Table::GenericParam, 1, &ZERO[..8]);
    let marshalled = due(Condition::Marshal, 0x0D00_0001);
    let module_named = due(Condition::Modules, 0x1A00_0001);
    let no_assembly = due(Condition::Modules, 0x2000_0001);
    let file_named = due(Condition::Modules, 0x2600_0001);
    let rows: [(&[Filled], Option<Unmet>); 4] = [
        (&[TYPES, field, security, marshal], marshalled),
        (&[TYPES, import, module], module_named),
        (&[TYPES, generic, file], no_assembly),
        (&[TYPES, ASSEMBLY, generic, file], file_named),
    ];
    for (tables, wanted) in rows {
        assert_eq!(rt; unmet(&rt, alloc, tables, &[])?, wanted);
    }
    one_first_failure();
    Ok(())
}
