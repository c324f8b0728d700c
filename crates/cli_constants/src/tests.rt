// Constants by their bytes.

use crate::literal_of;
use class_rows::Literal;
use std::test::Fail;

#[test]
fn bytes_say_values(rt: HostRuntime) -> Result<(), Fail> {
    let alloc = rt.alloc();
    let numbers: [(u32, &[u8], Option<i128>); 12] = [
        (0x02, &[1], Some(1)),
        (0x03, &[0xFF, 0xFF], Some(65535)),
        (0x04, &[0xFE], Some(-2)),
        (0x05, &[0xFE], Some(254)),
        (0x06, &[0, 0x80], Some(-32768)),
        (0x08, &[0xFE, 0xFF, 0xFF, 0xFF], Some(-2)),
        (0x09, &[0xFE, 0xFF, 0xFF, 0xFF], Some(4294967294)),
        (
            0x0A,
            &[0, 0, 0, 0, 0, 0, 0, 0x80],
            Some(-9223372036854775808),
        ),
        (
            0x0B,
            &[0, 0, 0, 0, 0, 0, 0, 0x80],
            Some(9223372036854775808),
        ),
        (0x08, &[1, 0], None),
        (0x0C, &[0, 0, 0, 0], None),
        (0x12, &[1, 0, 0, 0], None),
    ];
    for (element, bytes, due) in numbers {
        let found = match literal_of(alloc, element, bytes)? {
            Some(Literal::Number(number)) => Some(number),
            _ => None,
        };
        assert!(rt; found == due);
    }
    match literal_of(alloc, 0x0E, &[0x61, 0, 0x3D, 0xD8])? {
        Some(Literal::Text(text)) => {
            assert_eq!(rt; text.units(), [0x61, 0xD83D].as_slice());
        }
        _ => assert!(rt; false),
    }
    assert!(rt; literal_of(alloc, 0x0E, &[0x61])?.is_none());
    assert!(rt; matches!(literal_of(alloc, 0x12, &[0; 4])?, Some(Literal::NullText)));
    Ok(())
}
