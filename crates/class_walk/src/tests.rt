// Small trees, worked by hand.

use crate::{Step, walk_of};
use class_parts::orders_of;
use class_rows::{Access, Kind, TypeRow};
use dc_base::{NoMemory, Or, Seq, Text, TypeId};
use std::alloc::Global;
use std::test::Fail;

fn type_row(alloc: Global, base: Option<u32>) -> Result<TypeRow, NoMemory> {
    Ok(TypeRow {
        name: Text::of(alloc, "T")?,
        space: Text::of(alloc, "")?,
        outer: None,
        kind: Kind::Class,
        access: Access::Public,
        base: base.map(TypeId),
        bases: Seq::of(Vec::new(alloc)),
        is_abstract: false,
        is_sealed: false,
        own: true,
    })
}

fn types_of(alloc: Global, bases: &[Option<u32>]) -> Result<Vec<TypeRow>, NoMemory> {
    let mut types = Vec::new(alloc);
    for base in bases {
        types.push(type_row(alloc, *base)?)?;
    }
    Ok(types)
}

fn number_of(step: Step) -> i32 {
    match step {
        Step::Enter(t) => 1 + (t.0 % 100) as i32,
        Step::Leave(t) => -1 - (t.0 % 100) as i32,
    }
}

// The walk: t + 1 for the entry of t, and - t - 1 for its leave; nothing where there is none.
fn walked(alloc: Global, bases: &[Option<u32>]) -> Result<Vec<i32>, NoMemory> {
    let types = types_of(alloc, bases)?;
    if types.len() > 99 {
        return Ok(Vec::new(alloc));
    }
    let Ok(orders) = orders_of(alloc, types.as_slice()) else {
        return Ok(Vec::new(alloc));
    };
    let mut numbers = Vec::new(alloc);
    for step in walk_of(alloc, types.as_slice(), orders.bases.items())?.as_slice() {
        numbers.push(number_of(*step))?;
    }
    Ok(numbers)
}

#[test]
fn a_walk_enters_each_type_from_its_base(rt: HostRuntime) -> Result<(), Fail> {
    let rows: [(&[Option<u32>], &[i32]); 5] = [
        (&[], &[]),
        (&[None], &[1, -1]),
        (
            &[None, Some(0), Some(1), Some(0)],
            &[1, 4, -4, 2, 3, -3, -2, -1],
        ),
        (&[Some(1), None, Some(9)], &[3, -3, 2, 1, -1, -2]),
        (&[Some(2), Some(0), None], &[3, 1, 2, -2, -1, -3]),
    ];
    for (bases, due) in rows {
        let steps = walked(rt.alloc(), bases)?;
        assert_eq!(rt; steps.as_slice(), due);
    }
    Ok(())
}
