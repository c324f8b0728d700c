// Which calls of an outside in memory fail.

ghost use Rattle.std.specs.Prelude.{◌≡◌, ◌↔◌, IsTrue, Contains};
ghost use Rattle.dc_outside.specs.Script.{IsNextListed};
ghost use Rattle.dc_outside.specs.Outside.{one_more};

/// The numbers of the calls that are to fail, from 1, and how many calls there were.
#[derive(Debug, Drop)]
pub(crate) struct Script {
    fails: Vec<u32>,
    calls: u64,
}

impl Script {
    pub(crate) fn of(fails: Vec<u32>) -> Script
        ensures fails { result.fails ≡ fails }
        ensures calls { result.calls ≡ 0 }
    {
        Script { fails, calls: 0 }
    }

    /// Counts a call, and says whether it is to fail.
    pub(crate) fn next_fails(&mut self) -> bool
        ensures listed { IsTrue result ↔ IsNextListed self.old.fails.items self.old.calls }
        ensures counts { self.new ≡ record self.old { calls = one_more self.old.calls } }
    {
        self.calls = self.calls.saturating_add(1);
        is_listed(&self.fails, self.calls)
    }
}

fn is_listed(numbers: &[u32], number: u64) -> bool
    ensures { IsTrue result ↔ Contains numbers.now number }
{
    numbers.iter().any(|&n| u64::from(n) == number)
}
