// A list column, and searches in it.

ghost use Rattle.std.specs.Prelude.{◌≡◌, ◌≤◌, ◌<◌, ◌↔◌, ◌+◌, ◌^◌, ℕ, length, slice_index, IfSome, IfNone};
ghost use Rattle.std.specs.Bool.{OnTrue, OnFalse};
ghost use Rattle.cli_lists.specs.Starts.{IsStart, IsInList};
ghost use Rattle.cli_lists.specs.Lists.{IsListColumn};

use dc_base::Seq;
use std::ops::Range;

/// The cells of a list column, from row 1 on, and how many rows the table has whose rows they name.
#[derive(Debug, Drop)]
pub struct ListColumn {
    pub cells: Seq<u32>,
    pub rows: u32,
}

impl ListColumn {
    /// The rows in the list of row `k`, in constant time.
    pub fn list(&self, k: u32) -> Range<u32>
        requires column { IsListColumn self.now }
        requires low { 1 ≤ k }
        requires high { k ≤ length self.now.cells }
        ensures { (n : ℕ) → ((result.start ≤ n) × (n < result.end)) ↔ IsInList self.now.rows self.now.cells k n }
    {
        self.cells.items()[k as usize - 1]..self.end(k)
    }

    // Where the list of row `k` ends.
    fn end(&self, k: u32) -> u32
        requires { self.now.rows < 2 ^ 24 }
        ensures next { k < length self.now.cells → result ≡ slice_index self.now.cells k }
        ensures last { length self.now.cells ≤ k → result ≡ self.now.rows + 1 }
    {
        match self.cells.items().get(k as usize) {
            Some(next) => *next,
            None => self.rows + 1,
        }
    }

    /// The row in whose list row `n` stands. It takes the time of a binary search.
    pub fn owner(&self, n: u32) -> Option<u32>
        requires { IsListColumn self.now }
        ensures some { IfSome result (λ k. IsInList self.now.rows self.now.cells k n) }
        ensures none { IfNone result ((k : ℕ) → IsInList self.now.rows self.now.cells k n → ⊥) }
    {
        let behind = self.cells.items().partition_point(|cell| *cell <= n);
        if self.rows < n || behind == 0 {
            return None;
        }
        Some(behind as u32)
    }

    // Whether row k + 1 begins a list.
    pub(crate) fn is_start(&self, k: usize) -> bool
        ensures yes { OnTrue result (IsStart self.now.rows self.now.cells (k + 1)) }
        ensures no { OnFalse result (IsStart self.now.rows self.now.cells (k + 1) → ⊥) }
    {
        let cells = self.cells.items();
        match cells.get(k) {
            Some(cell) => {
                1 <= *cell && *cell - 1 <= self.rows && (k == 0 || cells[k - 1] <= *cell)
            }
            None => false,
        }
    }
}
