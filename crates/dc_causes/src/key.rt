// Keys that stand twice.

ghost use Rattle.std.specs.Prelude.{◌≡◌, ℕ, IfOk, IfSome, IfNone};
ghost use Rattle.dc_causes.specs.First.{IsLeast};
ghost use Rattle.dc_causes.specs.Rows.{IsRepeated};

use dc_base::NoMemory;
use indexmap::IndexSet;
use std::alloc::Global;
use std::hash::Hash;

/// The least index whose key stands at an earlier index too, or none where all keys differ. It takes the time of one look-up
/// in a table of hashes for each key.
pub fn least_repeated_key<K: Copy + Eq + Hash>(
    alloc: Global,
    keys: &[K],
) -> Result<Option<usize>, NoMemory>
    ensures repeated { IfOk result (λ found. IfSome found (IsLeast (IsRepeated K.eq keys.now))) }
    ensures apart { IfOk result (λ found. IfNone found ((n : ℕ) → IsRepeated K.eq keys.now n → ⊥)) }
{
    let mut seen = IndexSet::new(alloc);
    for (index, key) in keys.iter().enumerate() {
        let (_, is_new) = seen.insert_full(*key)?;
        if !is_new {
            return Ok(Some(index));
        }
    }
    Ok(None)
}
