// The aims of some code.

ghost use Rattle.std.specs.Prelude.{◌≡◌, ℕ, ◌||◌, ◌==◌, ◌<◌, length, slice_index_or, false, IfOk};
ghost use Rattle.std.specs.List.{list_any};
ghost use Rattle.cil_aims.specs.Aims.{AreMarks};

use cil_rows::Row;
use dc_base::NoMemory;
use std::alloc::Global;

/// For each instruction whether a jump of some instruction leads to it. It takes the time of one look at each instruction
/// and at each aim.
pub fn aimed(alloc: Global, rows: &[Row]) -> Result<Vec<bool>, NoMemory>
    ensures { IfOk result (λ marks. AreMarks rows.now marks.items) }
{
    let mut marks = unmarked(alloc, rows.len())?;
    for row in rows {
        mark(&mut marks, row.aims());
    }
    Ok(marks)
}

fn unmarked(alloc: Global, count: usize) -> Result<Vec<bool>, NoMemory>
    ensures len { IfOk result (λ marks. length marks.items ≡ count) }
    ensures none { IfOk result (λ marks. (n : ℕ) → slice_index_or marks.items n false ≡ false) }
{
    let mut marks = Vec::new(alloc);
    for _n in 0..count {
        marks.push(false)?;
    }
    Ok(marks)
}

// Marks each of some aims that is an instruction.
fn mark(marks: &mut [bool], aims: &[u32])
    ensures { (n : ℕ) → n < length marks.old → slice_index_or marks.new n false ≡ (slice_index_or marks.old n false || list_any (λ aim. aim == n) aims.now) }
{
    for aim in aims {
        let number = *aim as usize;
        if number < marks.len() {
            marks[number] = true;
        }
    }
}
