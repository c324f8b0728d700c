// Images made by hand, read and refused.

ghost use Rattle.std.specs.Prelude.{◌≤◌, ◌^◌, length};

use crate::{Image, ImageCause, ImageFault};
use byteorder::{ByteOrder, LittleEndian};
use std::process::Abort;
use std::test::Fail;

const LEN: usize = 0x500;

// The fields of a file with two sections, each with its place: the place of the signature and the signature, the COFF
// header with the counts, the magic, data directory 14, the section headers, and the CLI header at 0x200.
const PE32: [(usize, u32); 15] = [
    (0x3C, 0x40),
    (0x40, 0x4550),
    (0x44, 0x0002_014C),
    (0x54, 0x2102_00E0),
    (0x58, 0x10B),
    (0x128, 0x2000),
    (0x144, 0x2000),
    (0x148, 0x1FF),
    (0x14C, 0x200),
    (0x16C, 0x4000),
    (0x170, 0x100),
    (0x174, 0x400),
    (0x208, 0x2050),
    (0x20C, 0x20),
    (0x210, 0x1),
];

// The same with addresses of 64 bits.
const PE32_PLUS: [(usize, u32); 15] = [
    (0x3C, 0x40),
    (0x40, 0x4550),
    (0x44, 0x0002_8664),
    (0x54, 0x2022_00F0),
    (0x58, 0x20B),
    (0x138, 0x2000),
    (0x154, 0x2000),
    (0x158, 0x1FF),
    (0x15C, 0x200),
    (0x17C, 0x4000),
    (0x180, 0x100),
    (0x184, 0x400),
    (0x208, 0x2050),
    (0x20C, 0x20),
    (0x210, 0x3),
];

// A file in which no two places near each other have the same byte, apart from these fields.
fn made(fields: &[(usize, u32)]) -> [u8; LEN] {
    let mut file = [0; LEN];
    for (i, byte) in file.iter_mut().enumerate() {
        *byte = (i % 251) as u8;
    }
    put(&mut file, fields);
    file
}

fn put(file: &mut [u8], fields: &[(usize, u32)]) {
    for (place, n) in fields {
        if let Some(bytes) = file.get_mut(*place..) {
            if bytes.len() >= 4 {
                LittleEndian::write_u32(bytes, *n);
            }
        }
    }
}

// What is wrong with the file of 32 bits after one more field was written.
fn fault_with(place: usize, n: u32) -> Option<ImageFault> {
    let mut file = made(&PE32);
    put(&mut file, &[(place, n)]);
    let file: &[u8] = &file;
    Image::of(file).err()
}

#[test]
fn addresses_are_those_of_raw_bytes(rt: HostRuntime) -> Result<(), Fail> {
    for fields in [PE32, PE32_PLUS] {
        let made = made(&fields);
        let file: &[u8] = &made;
        let image = Image::of(file).ok().ok_or("the file is an image")?;
        assert_eq!(rt; image.metadata(), &file[0x250..0x270]);
        assert_eq!(rt; image.at(0x21FB, 4), Some(&file[0x3FB..0x3FF]));
        assert_eq!(rt; image.at(0x21FC, 4), None);
        assert_eq!(rt; image.at(0x1FFF, 1), None);
        assert_eq!(rt; image.at(0x40FF, 1), Some(&file[0x4FF..]));
        assert_eq!(rt; image.at(0x2000, 0xFFFF_FFFF), None);
        assert_eq!(rt; image.rest(0x21F0), Some(&file[0x3F0..0x3FF]));
        assert_eq!(rt; image.rest(0x21FF), None);
    }
    Ok(())
}

#[test]
fn of_two_sections_the_first_counts(rt: HostRuntime) -> Result<(), Fail> {
    let mut made = made(&PE32);
    put(&mut made, &[(0x16C, 0x2100)]);
    let file: &[u8] = &made;
    let image = Image::of(file).ok().ok_or("the file is an image")?;
    assert_eq!(rt; image.at(0x2100, 4), Some(&file[0x300..0x304]));
    assert_eq!(rt; image.at(0x21FC, 4), Some(&file[0x4FC..]));
    assert_eq!(rt; image.rest(0x2150), Some(&file[0x350..0x3FF]));
    assert_eq!(rt; image.rest(0x21FF), Some(&file[0x4FF..]));
    Ok(())
}

#[test]
fn an_index_answers_as_the_image(rt: HostRuntime) -> Result<(), Fail> {
    // The second section behind the first one, over its end, and before it.
    for second in [0x4000, 0x2100, 0x1000] {
        let mut made = made(&PE32);
        put(&mut made, &[(0x16C, second)]);
        let file: &[u8] = &made;
        let image = Image::of(file).ok().ok_or("the file is an image")?;
        let index = image.index(rt.alloc())?;
        for rva in [
            0xFFF, 0x1000, 0x10FF, 0x1100, 0x2000, 0x21FE, 0x21FF, 0x40FF,
        ] {
            assert_eq!(rt; index.at(rva, 0), image.at(rva, 0));
            assert_eq!(rt; index.at(rva, 2), image.at(rva, 2));
            assert_eq!(rt; index.rest(rva), image.rest(rva));
        }
    }
    Ok(())
}

#[test]
fn each_fault_stands_at_its_place(rt: HostRuntime) {
    let faults = [
        // The place of the signature, the signature, the magic.
        ((0x3C, 0x44), ImageCause::NotPe, 0x3C),
        ((0x3C, 0xFFFF_FFFF), ImageCause::NotPe, 0x3C),
        ((0x40, 0x4551), ImageCause::NotPe, 0x3C),
        ((0x58, 0x10C), ImageCause::NotPe, 0x58),
        // A section header behind the file's end, and raw bytes that pass it.
        ((0x54, 0x481), ImageCause::BadSection, 0x4D9),
        ((0x148, 0x301), ImageCause::BadSection, 0x138),
        ((0x170, 0x101), ImageCause::BadSection, 0x160),
        ((0x174, 0xFFFF_FFFF), ImageCause::BadSection, 0x160),
        // Data directory 14 is zero, names addresses that no section holds, or names a header whose metadata has some.
        ((0x128, 0), ImageCause::NoCli, 0x128),
        ((0x128, 0x9000), ImageCause::NoCli, 0x128),
        ((0x128, 0x21B8), ImageCause::NoCli, 0x128),
        ((0x208, 0x9000), ImageCause::NoCli, 0x128),
        ((0x20C, 0x1B0), ImageCause::NoCli, 0x128),
        ((0x210, 2), ImageCause::NotIlOnly, 0x210),
    ];
    for ((place, n), cause, at) in faults {
        let wanted = Some(ImageFault { cause, place: at });
        assert_eq!(rt; fault_with(place, n), wanted, "{place} is {n}");
    }
}

#[test]
fn an_optional_header_without_the_directory_has_no_cli(rt: HostRuntime) {
    let mut made = made(&PE32);
    put(&mut made, &[(0x44, 0x014C), (0x54, 0xD7)]);
    let wanted = ImageFault {
        cause: ImageCause::NoCli,
        place: 0x128,
    };
    let file: &[u8] = &made;
    assert_eq!(rt; Image::of(file).err(), Some(wanted));
}

#[test]
fn a_file_that_is_cut_is_no_image(rt: HostRuntime) {
    let made = made(&PE32);
    let file: &[u8] = &made;
    for len in 0..LEN {
        let fault = Image::of(&file[..len]).err();
        let (cause, place) = match len {
            ..0x40 => (ImageCause::NotPe, 0),
            ..0x44 => (ImageCause::NotPe, 0x3C),
            ..0x5A => (ImageCause::NotPe, 0x58),
            ..0x3FF => (ImageCause::BadSection, 0x138),
            _ => (ImageCause::BadSection, 0x160),
        };
        assert_eq!(rt; fault, Some(ImageFault { cause, place }), "{len} bytes");
    }
}
