// Where each key stands first.

ghost use Rattle.std.specs.Prelude.{◌≡◌, ◌++◌, ◌∷◌, [], if◌then◌else◌, IfOk};
ghost use Rattle.class_keys.specs.Firsts.{AreFirsts};

use dc_base::NoMemory;
use indexmap::IndexSet;
use std::alloc::Global;
use std::hash::Hash;

/// For each key the least index at which an equal key stands. It takes the time of one look-up in a table of hashes for
/// each key.
pub fn first_indices<K: Copy + Eq + Hash>(alloc: Global, keys: &[K]) -> Result<Vec<usize>, NoMemory>
    ensures { IfOk result (λ firsts. AreFirsts K.eq keys.now firsts.items) }
{
    let mut seen = IndexSet::new(alloc);
    let mut places = Vec::new(alloc);
    let mut firsts = Vec::new(alloc);
    for index in 0..keys.len() {
        let (place, is_new) = seen.insert_full(keys[index])?;
        places = with_place(places, is_new, index)?;
        firsts.push(places[place])?;
    }
    Ok(firsts)
}

fn with_place(places: Vec<usize>, is_new: bool, index: usize) -> Result<Vec<usize>, NoMemory>
    ensures { IfOk result (λ places'. places'.items ≡ (if is_new then places.items ++ (index ∷ []) else places.items)) }
{
    let mut places = places;
    if is_new {
        places.push(index)?;
    }
    Ok(places)
}

#[cfg(test)]
mod tests {
    use super::*;
    use std::test::Fail;

    #[test]
    fn finds_where_each_key_stands_first(rt: HostRuntime) -> Result<(), Fail> {
        let firsts = first_indices(rt.alloc(), &[5, 6, 5, 7, 6])?;
        assert_eq!(rt; firsts.as_slice(), [0, 1, 0, 3, 1].as_slice());
        Ok(())
    }
}
