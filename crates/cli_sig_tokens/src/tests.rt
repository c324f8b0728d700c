// Types by themselves.

use crate::type_spec;
use std::test::Fail;

#[test]
fn what_a_type_by_itself_is(rt: HostRuntime) -> Result<(), Fail> {
    let alloc = rt.alloc();
    let table: [(&[u8], Option<(u8, u32)>); 7] = [
        (&[0x1D, 0x12, 0x05], Some((1, 0x0100_0001))),
        (&[0x1D, 0x1D, 0x0E], Some((2, 0))),
        (&[0x08], Some((0, 0))),
        (&[0x10, 0x08], None),
        (&[0x01], None),
        (&[0x08, 0x08], None),
        (&[], None),
    ];
    for (blob, due) in table {
        let found = match type_spec(alloc, blob)? {
            Some(ty) => Some((ty.arrays, ty.token.0)),
            None => None,
        };
        assert_eq!(rt; found, due);
    }
    Ok(())
}
