// Rows that name each other, themselves, and numbers past the end.

use crate::reached;
use dc_base::{NoMemory, Seq};
use std::alloc::Global;
use std::test::Fail;

fn lists(alloc: Global, lists: &[&[u32]]) -> Result<Vec<Seq<u32>>, NoMemory> {
    let mut rows = Vec::new(alloc);
    for list in lists {
        rows.push(Seq::of(Vec::from_slice(alloc, list)?))?;
    }
    Ok(rows)
}

#[test]
fn what_roots_lead_to(rt: HostRuntime) -> Result<(), Fail> {
    let alloc = rt.alloc();
    let rows: [(&[u32], &[&[u32]], &[bool]); 5] = [
        (&[], &[], &[]),
        (&[7], &[&[0], &[0]], &[false, false]),
        (&[1], &[&[1], &[1, 9], &[]], &[false, true, false]),
        (&[0, 0], &[&[2], &[], &[0, 1]], &[true, true, true]),
        (
            &[3],
            &[&[], &[0], &[1], &[2, 5], &[3], &[]],
            &[true, true, true, true, false, true],
        ),
    ];
    for (roots, names, due) in rows {
        let names = lists(alloc, names)?;
        let marks = reached(alloc, roots, names.as_slice())?;
        assert_eq!(rt; marks.as_slice(), due);
    }
    Ok(())
}
