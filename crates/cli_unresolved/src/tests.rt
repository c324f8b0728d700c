// References that are found, lost, and lost but not reached.

use crate::first_lost;
use cli_named::Numbers;
use dc_base::{MemberId, Token, TypeId};
use std::test::Fail;

#[test]
fn first_reference_that_means_nothing(rt: HostRuntime) -> Result<(), Fail> {
    let numbers = Numbers {
        type_refs: 3,
        type_specs: 0,
        member_refs: 2,
        sigs: 0,
    };
    let types = [Some(TypeId(7)), None, None];
    let members = [None, Some(MemberId(1))];
    let table = [
        ([true, false, true, true, true], Some(Token(0x0100_0003))),
        ([true, false, false, true, true], Some(Token(0x0A00_0001))),
        ([true, false, false, false, true], None),
    ];
    for (marks, due) in table {
        assert_eq!(rt; first_lost(&numbers, &marks, &types, &members), due);
    }
    Ok(())
}
