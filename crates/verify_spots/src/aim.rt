// Where branches, switches and `leave` aim.

ghost use Rattle.std.specs.Prelude.{◌≡◌, ◌<◌, ◌⊎◌, ℕ, true, false, length, replicate, slice_index_or, Contains, IfOk};
ghost use Rattle.verify_spots.specs.Questions.{AreMarked};

use dc_base::NoMemory;
use std::alloc::Global;
use verify_rules::Setting;

/// Of each instruction whether one leads to it otherwise than from above.
pub fn aimed(alloc: Global, setting: &Setting<'_>) -> Result<Vec<bool>, NoMemory>
    ensures { IfOk result (λ aimed. AreMarked setting.now aimed.items) }
{
    let mut aimed = unmarked(alloc, setting.rows.len())?;
    for row in setting.rows {
        mark(&mut aimed, row.aims());
    }
    Ok(aimed)
}

fn unmarked(alloc: Global, count: usize) -> Result<Vec<bool>, NoMemory>
    ensures { IfOk result (λ marks. marks.items ≡ replicate count false) }
{
    let mut marks = Vec::new(alloc);
    for _number in 0..count {
        marks.push(false)?;
    }
    Ok(marks)
}

// Marks each aim that is among the marks.
fn mark(marks: &mut Vec<bool>, aims: &[u32])
    ensures as_many { length marks.new.items ≡ length marks.old.items }
    ensures some { (i : ℕ) → slice_index_or marks.new.items i false ≡ true → (slice_index_or marks.old.items i false ≡ true) ⊎ Contains aims.now i }
    ensures kept { (i : ℕ) → slice_index_or marks.old.items i false ≡ true → slice_index_or marks.new.items i false ≡ true }
    ensures all { (i : ℕ) → i < length marks.old.items → Contains aims.now i → slice_index_or marks.new.items i false ≡ true }
{
    for to in aims {
        mark_one(marks, *to as usize);
    }
}

fn mark_one(marks: &mut Vec<bool>, to: usize)
    ensures as_many { length marks.new.items ≡ length marks.old.items }
    ensures some { (i : ℕ) → slice_index_or marks.new.items i false ≡ true → (slice_index_or marks.old.items i false ≡ true) ⊎ (to ≡ i) }
    ensures kept { (i : ℕ) → slice_index_or marks.old.items i false ≡ true → slice_index_or marks.new.items i false ≡ true }
    ensures marked { to < length marks.old.items → slice_index_or marks.new.items to false ≡ true }
{
    if to < marks.len() {
        marks[to] = true;
    }
}
