// Conditions over a list of numbers, in both orders, and keys.

ghost use Rattle.std.specs.Prelude.{◌<◌, length, slice_index};

use crate::{Condition, first_broken, first_broken_place, least_repeated_key};
use std::test::Fail;

// Each number is below this one.
#[derive(Clone, Copy, Debug, PartialEq, Eq)]
struct Below(u8);

impl<'a> Condition<&'a [u8]> for Below {
    ghost rows = { λ _ numbers. length numbers.now };

    ghost Holds = { λ limit numbers row. slice_index numbers.now row < limit.0 };

    fn rows(self, numbers: &&'a [u8]) -> usize {
        numbers.len()
    }

    fn holds(self, numbers: &&'a [u8], row: usize) -> bool {
        numbers[row] < self.0
    }
}

#[test]
fn first_condition_or_first_place_counts(rt: HostRuntime) -> Result<(), Fail> {
    let rules = [Below(10), Below(5)];
    let numbers: &[u8] = &[3, 7, 2, 12];
    assert_eq!(rt; first_broken(&rules, &numbers), Some((Below(10), 3)));
    assert_eq!(rt;
        first_broken_place(&rules, &numbers, 4),
        Some((Below(5), 1))
    );
    assert_eq!(rt; first_broken_place(&rules, &numbers, 1), None);
    let small: &[u8] = &[3, 4];
    assert_eq!(rt; first_broken(&rules, &small), None);
    Ok(())
}

#[test]
fn keys_that_stand_twice(rt: HostRuntime) -> Result<(), Fail> {
    let rows: [(&[u32], Option<usize>); 4] = [
        (&[], None),
        (&[5, 6, 7], None),
        (&[5, 6, 7, 6, 5], Some(3)),
        (&[8, 8], Some(1)),
    ];
    for (keys, due) in rows {
        assert_eq!(rt; least_repeated_key(rt.alloc(), keys)?, due);
    }
    Ok(())
}
