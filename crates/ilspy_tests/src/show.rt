// The command `show`: what it writes of an assembly, and how it refuses one.

use crate::body::{SUM, check};
use byteorder::{ByteOrder, LittleEndian};
use ilspy_cli::Status;
use std::test::Fail;

const LEN: usize = 664;

// The words of the file that aren't 0, each with its place: the signature's place and the signature, the count of
// sections, the magic, data directory 14, the section, the metadata's range and the flags; then the metadata: its root
// with two streams, five tables (3 types, 1 field, 4 methods, 1 property, 1 assembly) and a heap with one string.
const SHOP: [(usize, u32); 35] = [
    (0x3C, 0x40),
    (0x40, 0x4550),
    (0x44, 0x1_014C),
    (0x54, 0x2102_00E0),
    (0x58, 0x10B),
    (0x128, 0x2000),
    (0x144, 0x2000),
    (0x148, 0x138),
    (0x14C, 0x160),
    (0x168, 0x2048),
    (0x16C, 0xEE),
    (0x170, 0x1),
    (0x1A8, 0x424A_5342),
    (0x1AC, 0x1_0001),
    (0x1B4, 0x4),
    (0x1B8, 0x3476),
    (0x1BC, 0x2_0000),
    (0x1C0, 0x38),
    (0x1C4, 0xB0),
    (0x1C8, 0x7E23),
    (0x1CC, 0xE8),
    (0x1D0, 0x6),
    (0x1D4, 0x7274_5323),
    (0x1D8, 0x7367_6E69),
    (0x1E4, 0x100_0002),
    (0x1E8, 0x80_0054),
    (0x1EC, 0x1),
    (0x1F8, 0x3),
    (0x1FC, 0x1),
    (0x200, 0x4),
    (0x204, 0x1),
    (0x208, 0x1),
    (0x28C, 0x1),
    (0x290, 0x6F68_5300),
    (0x294, 0x70),
];

// The place of the index of the assembly's name, and that of the name.
const NAME_INDEX: usize = 0x28C;

const NAME: usize = 0x291;

fn put(file: &mut [u8], fields: &[(usize, u32)]) {
    for (place, n) in fields {
        if let Some(bytes) = file.get_mut(*place..) {
            if bytes.len() >= 4 {
                LittleEndian::write_u32(bytes, *n);
            }
        }
    }
}

// The assembly with one word written over.
fn with_word(place: usize, n: u32) -> [u8; LEN] {
    let mut file = [0; LEN];
    put(&mut file, &SHOP);
    put(&mut file, &[(place, n)]);
    file
}

#[test]
fn an_assembly_is_named_and_counted(rt: HostRuntime) -> Result<(), Fail> {
    let alloc = rt.alloc();
    let words = ["ilspy", "show", "f"];
    let names: [(u32, &str); 3] = [
        (0x706F_6853, "Shop"),
        (0xA9C3_2241, "A\"\\u00e9"),
        (0x8098_9FF0, "\\ud83d\\ude00"),
    ];
    for (bytes, name) in names {
        let text = format!(in alloc;
            "assembly {name}\ntypes 3\nfields 1\nmethods 4\nproperties 1\n"
        )?;
        let file = with_word(NAME, bytes);
        check(&rt, alloc, &words, &file, Status::Done, &text)?;
    }
    Ok(())
}

#[test]
fn a_file_that_is_no_whole_assembly_is_refused(rt: HostRuntime) -> Result<(), Fail> {
    let alloc = rt.alloc();
    let words = ["ilspy", "show", "f"];
    let words_over: [(usize, u32, &str); 4] = [
        (0x170, 0, "refused: BadImage NotIlOnly at 368\n"),
        (0x1A8, 0, "refused: BadMeta BadRoot at 0\n"),
        (NAME_INDEX, 6, "refused: BadMeta 20000001 BadIndex\n"),
        (NAME + 3, 0xFFFF_FF70, "refused: BadMeta 20000001 BadText\n"),
    ];
    for (place, n, line) in words_over {
        let file = with_word(place, n);
        check(&rt, alloc, &words, &file, Status::Refused, line)?;
    }
    let not_pe = "refused: BadImage NotPe at 0\n";
    check(&rt, alloc, &words, &SUM, Status::Refused, not_pe)?;
    check(&rt, alloc, &words, &[], Status::Refused, not_pe)?;
    Ok(())
}
