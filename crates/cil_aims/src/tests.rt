// Jumps forth, back, and past the end.

use crate::aimed;
use cil_rows::Row;
use dc_base::Seq;
use std::test::Fail;

#[test]
fn what_jumps_lead_to(rt: HostRuntime) -> Result<(), Fail> {
    let alloc = rt.alloc();
    let rows = vec![in alloc;
        Row::Branch { to: 2 },
        Row::Nop,
        Row::Switch(Seq::of(vec![in alloc; 4, 9]?)),
        Row::Nop,
        Row::Leave { to: 0 },
    ]?;
    let marks = aimed(alloc, rows.as_slice())?;
    assert_eq!(rt;
        marks.as_slice(),
        [true, false, true, false, true].as_slice()
    );
    Ok(())
}
