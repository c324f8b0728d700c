// The rows that are reached.

ghost use Rattle.std.specs.Prelude.{◌≡◌, ℕ, false, length, slice_index_or, IfOk, OnOk};
ghost use Rattle.cli_reached.specs.Reached.{AreReached};
ghost use Rattle.cli_reached.specs.Visited.{AreWithin, AreVisited};

use dc_base::{NoMemory, Seq};
use std::alloc::Global;

/// For each row whether it is reached. `names` has for each row the rows that it names; a number past its end is no row. It
/// takes the time of one look at each name.
pub fn reached(alloc: Global, roots: &[u32], names: &[Seq<u32>]) -> Result<Vec<bool>, NoMemory>
    ensures { IfOk result (λ marks. AreReached roots.now names.now marks.items) }
{
    let mut visited = Visited {
        marks: unmarked(alloc, names.len())?,
        todo: Vec::new(alloc),
    };
    visited.visit(roots)?;
    while let Some(row) = visited.todo.pop() {
        visited.visit(names[row as usize].items())?;
    }
    let Visited { marks, todo: _ } = visited;
    Ok(marks)
}

fn unmarked(alloc: Global, count: usize) -> Result<Vec<bool>, NoMemory>
    ensures len { IfOk result (λ marks. length marks.items ≡ count) }
    ensures none { IfOk result (λ marks. (n : ℕ) → slice_index_or marks.items n false ≡ false) }
{
    let mut marks = Vec::new(alloc);
    for _row in 0..count {
        marks.push(false)?;
    }
    Ok(marks)
}

// Which rows are marked as reached, and those of them whose names are still to be visited.
#[derive(Drop)]
struct Visited {
    marks: Vec<bool>,
    todo: Vec<u32>,
}

impl Visited {
    // Marks those of some rows that aren't marked.
    fn visit(&mut self, rows: &[u32]) -> Result<(), NoMemory>
        requires { AreWithin (length self.old.marks.items) self.old.todo.items }
        ensures { OnOk result (AreVisited (length rows.now) rows.now self.old.marks.items self.old.todo.items self.new.marks.items self.new.todo.items) }
    {
        for row in rows {
            let number = *row as usize;
            if number < self.marks.len() && !self.marks[number] {
                self.marks[number] = true;
                self.todo.push(*row)?;
            }
        }
        Ok(())
    }
}
