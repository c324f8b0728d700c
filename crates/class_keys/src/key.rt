// Keys that stand at two indices.

ghost use Rattle.std.specs.Prelude.{IfOk};
ghost use Rattle.class_keys.specs.Least.{IsLeastOf};
ghost use Rattle.class_keys.specs.Shared.{IsShared};

use dc_base::NoMemory;
use indexmap::IndexSet;
use std::alloc::Global;
use std::hash::Hash;

/// The least index whose key stands at another index too, before it or behind it; none where all keys differ. It takes the
/// time of one look-up in a table of hashes for each key.
pub fn least_shared_key<K: Copy + Eq + Hash>(
    alloc: Global,
    keys: &[K],
) -> Result<Option<usize>, NoMemory>
    ensures { IfOk result (IsLeastOf (IsShared K.eq keys.now)) }
{
    let mut behind = IndexSet::new(alloc);
    let mut least = None;
    for index in (0..keys.len()).rev() {
        let (_, is_new) = behind.insert_full(keys[index])?;
        if !is_new {
            least = Some(index);
        }
    }
    Ok(least)
}

#[cfg(test)]
mod tests {
    use super::*;
    use std::test::Fail;

    #[test]
    fn finds_the_first_of_two_equal_keys(rt: HostRuntime) -> Result<(), Fail> {
        let rows: [(&[u32], Option<usize>); 4] = [
            (&[], None),
            (&[5, 6, 7], None),
            (&[5, 6, 7, 6, 5], Some(0)),
            (&[4, 8, 8], Some(1)),
        ];
        for (keys, due) in rows {
            assert_eq!(rt; least_shared_key(rt.alloc(), keys)?, due);
        }
        Ok(())
    }
}
