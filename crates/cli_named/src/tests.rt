// Numbers of rows.

use crate::Numbers;
use dc_base::Token;
use std::test::Fail;

#[test]
fn rows_have_numbers(rt: HostRuntime) -> Result<(), Fail> {
    let numbers = Numbers {
        type_refs: 2,
        type_specs: 1,
        member_refs: 1,
        sigs: 1,
    };
    assert_eq!(rt; numbers.count(), 5);
    let table = [
        (0x0100_0001, Some(0)),
        (0x0100_0002, Some(1)),
        (0x1B00_0001, Some(2)),
        (0x0A00_0001, Some(3)),
        (0x1100_0001, Some(4)),
        (0x0100_0000, None),
        (0x0100_0003, None),
        (0x0200_0001, None),
    ];
    for (token, due) in table {
        assert_eq!(rt; numbers.number(Token(token)), due);
    }
    Ok(())
}
