// Metadata made by hand, read and refused.

ghost use Rattle.std.specs.Prelude.{◌<◌, ◌^◌, length};

use crate::widths::{row_width, widths_of};
use crate::{
    Coded, CodedIndex, MOST_COLUMNS, MetaCause, MetaFault, Metadata, TABLES, Table, TableRow,
    coded, compressed, one_reading, rows_are_whole, tables_are_the_standards,
};
use dc_base::Token;
use std::process::Abort;
use std::test::Fail;

// Metadata with all five streams: one row of Module, two of TypeRef and one of TypeDef.
const WHOLE: [u8; 218] = [
    0x42, 0x53, 0x4A, 0x42, 0x01, 0x00, 0x01, 0x00, 0x00, 0x00, 0x00, 0x00, 0x04, 0x00, 0x00, 0x00,
    0x76, 0x34, 0x00, 0x00, 0x00, 0x00, 0x05, 0x00, 0x64, 0x00, 0x00, 0x00, 0x48, 0x00, 0x00, 0x00,
    0x23, 0x7E, 0x00, 0x00, 0xAC, 0x00, 0x00, 0x00, 0x08, 0x00, 0x00, 0x00, 0x23, 0x53, 0x74, 0x72,
    0x69, 0x6E, 0x67, 0x73, 0x00, 0x00, 0x00, 0x00, 0xB4, 0x00, 0x00, 0x00, 0x0C, 0x00, 0x00, 0x00,
    0x23, 0x55, 0x53, 0x00, 0xC0, 0x00, 0x00, 0x00, 0x10, 0x00, 0x00, 0x00, 0x23, 0x47, 0x55, 0x49,
    0x44, 0x00, 0x00, 0x00, 0xD0, 0x00, 0x00, 0x00, 0x0A, 0x00, 0x00, 0x00, 0x23, 0x42, 0x6C, 0x6F,
    0x62, 0x00, 0x00, 0x00, 0x00, 0x00, 0x00, 0x00, 0x02, 0x00, 0x00, 0x01, 0x07, 0x00, 0x00, 0x00,
    0x00, 0x00, 0x00, 0x00, 0x00, 0x00, 0x00, 0x00, 0x00, 0x00, 0x00, 0x00, 0x01, 0x00, 0x00, 0x00,
    0x02, 0x00, 0x00, 0x00, 0x01, 0x00, 0x00, 0x00, 0x00, 0x00, 0x03, 0x00, 0x01, 0x00, 0x00, 0x00,
    0x00, 0x00, 0x12, 0x00, 0x03, 0x00, 0x01, 0x00, 0x06, 0x00, 0x01, 0x00, 0x03, 0x00, 0x01, 0x00,
    0x10, 0x00, 0x03, 0x00, 0x01, 0x00, 0x05, 0x00, 0x01, 0x00, 0x01, 0x00, 0x00, 0x4E, 0x00, 0x41,
    0x00, 0xFF, 0x00, 0x78, 0x00, 0x05, 0x68, 0x00, 0x69, 0x00, 0x00, 0x02, 0x68, 0x00, 0x01, 0x00,
    0x00, 0x01, 0x02, 0x03, 0x04, 0x05, 0x06, 0x07, 0x08, 0x09, 0x0A, 0x0B, 0x0C, 0x0D, 0x0E, 0x0F,
    0x00, 0x02, 0x06, 0x07, 0x80, 0x03, 0x05, 0x01, 0x01, 0xAA,
];

// Metadata with a stream name of 32 bytes, two streams of one name, an unknown stream, no row and no heap of blobs.
const OTHER: [u8; 163] = [
    0x42, 0x53, 0x4A, 0x42, 0x01, 0x00, 0x01, 0x00, 0x00, 0x00, 0x00, 0x00, 0x04, 0x00, 0x00, 0x00,
    0x76, 0x34, 0x00, 0x00, 0x00, 0x00, 0x05, 0x00, 0x84, 0x00, 0x00, 0x00, 0x01, 0x00, 0x00, 0x00,
    0x4E, 0x4E, 0x4E, 0x4E, 0x4E, 0x4E, 0x4E, 0x4E, 0x4E, 0x4E, 0x4E, 0x4E, 0x4E, 0x4E, 0x4E, 0x4E,
    0x4E, 0x4E, 0x4E, 0x4E, 0x4E, 0x4E, 0x4E, 0x4E, 0x4E, 0x4E, 0x4E, 0x4E, 0x4E, 0x4E, 0x4E, 0x4E,
    0x00, 0x00, 0x00, 0x00, 0x85, 0x00, 0x00, 0x00, 0x03, 0x00, 0x00, 0x00, 0x23, 0x53, 0x74, 0x72,
    0x69, 0x6E, 0x67, 0x73, 0x00, 0x00, 0x00, 0x00, 0x88, 0x00, 0x00, 0x00, 0x03, 0x00, 0x00, 0x00,
    0x23, 0x53, 0x74, 0x72, 0x69, 0x6E, 0x67, 0x73, 0x00, 0x00, 0x00, 0x00, 0x8B, 0x00, 0x00, 0x00,
    0x00, 0x00, 0x00, 0x00, 0x23, 0x58, 0x00, 0x00, 0x8B, 0x00, 0x00, 0x00, 0x18, 0x00, 0x00, 0x00,
    0x23, 0x7E, 0x00, 0x00, 0x01, 0x00, 0x61, 0x00, 0x00, 0x62, 0x00, 0x00, 0x00, 0x00, 0x00, 0x02,
    0x00, 0x07, 0x01, 0x00, 0x00, 0x00, 0x00, 0x00, 0x00, 0x00, 0x00, 0x00, 0x00, 0x00, 0x00, 0x00,
    0x00, 0x00, 0x00,
];

// The cells of a row of TypeRef.
#[derive(Clone, Copy)]
struct TypeRefRow {
    scope: u32,
    name: u32,
    namespace: u32,
}

impl TableRow for TypeRefRow {
    ghost use Rattle.std.specs.Prelude.{slice_index};
    ghost use Rattle.cli_metadata.specs.declared.tables.Table.TheVariants.{TypeRef};

    ghost of_cells = { λ cells. record {
      scope = slice_index cells 0;
      name = slice_index cells 1;
      namespace = slice_index cells 2;
    } };

    ghost TABLE = { TypeRef };

    const TABLE: Table = Table::TypeRef;

    fn of(cells: &[u32; MOST_COLUMNS]) -> Self {
        TypeRefRow {
            scope: cells[0],
            name: cells[1],
            namespace: cells[2],
        }
    }
}

#[test]
fn reads_rows_by_their_number(rt: HostRuntime) -> Result<(), Fail> {
    let m = Metadata::of(&WHOLE)?;
    assert_eq!(rt; m.rows(Table::Module), 1);
    assert_eq!(rt; m.rows(Table::TypeRef), 2);
    assert_eq!(rt; m.rows(Table::MethodDef), 0);
    let rows = m.rows(Table::TypeRef);
    assert!(rt; 2 <= rows);
    let (first, second): (TypeRefRow, TypeRefRow) = (m.row(1), m.row(2));
    assert!(rt; (first.scope, first.name, first.namespace) == (0x12, 3, 1));
    assert!(rt; (second.scope, second.name, second.namespace) == (0x06, 1, 3));
    Ok(())
}

#[test]
fn reads_items_up_to_the_last_byte(rt: HostRuntime) -> Result<(), Fail> {
    let m = Metadata::of(&WHOLE)?;
    assert!(rt; m.string(0) == Ok(""));
    assert!(rt; m.string(1) == Ok("N"));
    assert!(rt; m.string(3) == Ok("A"));
    assert!(rt; m.string(5) == Err(fault(MetaCause::BadText, 5)));
    assert!(rt; m.string(7) == Err(fault(MetaCause::BadText, 7)));
    assert!(rt; m.string(8) == Err(fault(MetaCause::BadIndex, 8)));
    assert!(rt; m.blob(0) == Ok(&[][..]));
    assert!(rt; m.blob(1) == Ok(&[0x06, 0x07][..]));
    assert!(rt; m.blob(4) == Err(fault(MetaCause::BadBlob, 4)));
    assert!(rt; m.blob(6) == Err(fault(MetaCause::BadBlob, 6)));
    assert!(rt; m.blob(8) == Ok(&[0xAA][..]));
    assert!(rt; m.blob(10) == Err(fault(MetaCause::BadIndex, 10)));
    assert!(rt; m.user_string(0) == Err(fault(MetaCause::BadBlob, 0)));
    assert!(rt; m.user_string(1) == Ok(b"h\0i\0".as_slice()));
    assert!(rt; m.user_string(7) == Err(fault(MetaCause::BadBlob, 7)));
    assert!(rt; m.user_string(10) == Ok(&[][..]));
    assert!(rt; m.user_string(12) == Err(fault(MetaCause::BadIndex, 12)));
    Ok(())
}

#[test]
fn takes_the_first_of_a_name_and_passes_others_over(rt: HostRuntime) -> Result<(), Fail> {
    let m = Metadata::of(&OTHER)?;
    assert!(rt; m.string(1) == Ok("a"));
    assert!(rt; m.blob(0) == Err(fault(MetaCause::BadIndex, 0)));
    let mut longer = OTHER;
    longer[64] = 0x4E;
    refuses(&rt, &longer, MetaCause::BadRoot, 32);
    Ok(())
}

// What is wrong with the metadata where one byte of it is another.
#[test]
fn faults_stand_at_their_places(rt: HostRuntime) {
    for (at, byte, cause, place) in [
        (0, 0x00, MetaCause::BadRoot, 0),
        (12, 0xFF, MetaCause::BadRoot, 16),
        (28, 0xFF, MetaCause::BadStream, 24),
        (72, 0xFF, MetaCause::BadStream, 68),
        (88, 0xFF, MetaCause::BadStream, 84),
        (33, 0x78, MetaCause::BadStream, 100),
        (104, 0x01, MetaCause::BadHeader, 104),
        (105, 0x01, MetaCause::BadHeader, 105),
        (106, 0x08, MetaCause::BadHeader, 106),
        (106, 0x81, MetaCause::BadHeader, 106),
        (28, 0x14, MetaCause::BadHeader, 116),
        (108, 0x0F, MetaCause::UnknownTable, 108),
        (113, 0x20, MetaCause::UnknownTable, 108),
        (28, 0x1E, MetaCause::Truncated, 128),
        (28, 0x47, MetaCause::Truncated, 158),
    ] {
        let mut bytes = WHOLE;
        if let Some(changed) = bytes.get_mut(at) {
            *changed = byte;
        }
        refuses(&rt, &bytes, cause, place);
    }
    let mut bytes = WHOLE;
    for i in 128..132 {
        bytes[i] = 0xFF;
    }
    refuses(&rt, &bytes, MetaCause::Truncated, 146);
}

#[test]
fn metadata_that_ends_early_is_no_root(rt: HostRuntime) {
    refuses(&rt, &[], MetaCause::BadRoot, 0);
    refuses(&rt, &WHOLE[..4], MetaCause::BadRoot, 4);
    refuses(&rt, &WHOLE[..30], MetaCause::BadRoot, 28);
    refuses(&rt, &WHOLE[..98], MetaCause::BadRoot, 92);
}

#[test]
fn indices_grow_wide_where_two_bytes_are_too_few(rt: HostRuntime) {
    for (rows, width) in [(0xFFFF, 14), (0x1_0000, 16)] {
        let mut counts = [0; 45];
        counts[0x08] = rows;
        assert_eq!(rt; row_width(&widths_of(&TABLES[0x06], 0, &counts)), width);
    }
    for (rows, width) in [(16_383, 14), (16_384, 16)] {
        let mut counts = [0; 45];
        counts[0x1B] = rows;
        assert_eq!(rt; row_width(&widths_of(&TABLES[0x02], 0, &counts)), width);
    }
    for (sizes, width) in [(0, 10), (1, 12), (2, 16), (4, 10), (7, 18)] {
        assert_eq!(rt;
            row_width(&widths_of(&TABLES[0x00], sizes, &[0; 45])),
            width
        );
    }
}

#[test]
fn coded_indices_name_rows_of_listed_tables(rt: HostRuntime) {
    assert!(rt; coded(Coded::TypeDefOrRef, 5) == Some(Token(0x0100_0001)));
    assert!(rt; coded(Coded::TypeDefOrRef, 7).is_none());
    let kind = Coded::TypeDefOrRef;
    assert!(rt; CodedIndex { kind, cell: 5 }.token() == Some(Token(0x0100_0001)));
    assert!(rt; coded(Coded::ResolutionScope, 0) == Some(Token(0)));
    assert!(rt; coded(Coded::CustomAttributeType, 9).is_none());
    assert!(rt; coded(Coded::CustomAttributeType, 10) == Some(Token(0x0600_0001)));
    assert!(rt; coded(Coded::TypeDefOrRef, 0x03FF_FFFC) == Some(Token(0x02FF_FFFF)));
    assert!(rt; coded(Coded::TypeDefOrRef, 0x0400_0000).is_none());
    assert!(rt; compressed(&[0x80, 0x80]) == Some((128, 2)));
    tables_are_the_standards();
    one_reading();
    rows_are_whole();
}

fn refuses<R: Abort>(rt: &R, bytes: &[u8], cause: MetaCause, place: u32)
    requires { length bytes.now < 2 ^ 32 }
{
    match Metadata::of(bytes) {
        Ok(_) => assert!(rt; false),
        Err(found) => assert_eq!(rt; found, fault(cause, place)),
    }
}

fn fault(cause: MetaCause, place: u32) -> MetaFault {
    MetaFault { cause, place }
}
