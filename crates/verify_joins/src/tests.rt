// Slots that meet.

use crate::{join, joined_slot};
use dc_base::{Core, Seq, Ty, TypeId};
use std::test::Fail;
use verify_slots::{Mark, Slot};

fn class(t: u32) -> Ty {
    Ty {
        core: Core::Class(TypeId(t)),
        arrays: 0,
        lent: false,
    }
}

#[test]
fn slots_that_meet(rt: HostRuntime) -> Result<(), Fail> {
    let alloc = rt.alloc();
    let one = Slot::Refs(Seq::of(vec![in alloc; class(1), class(2)]?), Mark::This);
    let other = Slot::Refs(Seq::of(vec![in alloc; class(2), class(3)]?), Mark::Fresh);
    match joined_slot(alloc, &one, &other)? {
        Some(Slot::Refs(set, mark)) => {
            assert_eq!(rt; set.items(), [class(1), class(2), class(3)].as_slice());
            assert_eq!(rt; mark, Mark::Other);
        }
        _ => panic!(rt; "two sets of types unite"),
    }
    let truths = vec![in alloc; Slot::Truth, Slot::Int]?;
    let ints = vec![in alloc; Slot::Int, Slot::Long]?;
    assert!(rt; join(alloc, truths.as_slice(), ints.as_slice())?.is_none());
    match join(alloc, truths.as_slice(), truths.as_slice())? {
        Some(frame) => assert_eq!(rt; frame.items().len(), 2),
        None => panic!(rt; "a frame unites with itself"),
    }
    Ok(())
}
