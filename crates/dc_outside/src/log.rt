// What an outside has done, kept for contracts alone.

ghost use Rattle.std.specs.Prelude.{◌≡◌, ℕ, List, [], ◌++◌};
ghost use Rattle.std.specs.Borrow.{ftrue};
ghost use Rattle.dc_outside.specs.Outside.{Given, given_after};

use crate::TakeFault;
use dc_base::{Or, Text};
use std::marker::Model;

/// What a shelf gave, as a shelf of one's own may keep it for its contract. It takes no memory, and no code can read it.
#[derive(Debug, Drop)]
pub struct ShelfLog {
    pub ghost given: { List Given },
}

impl Model for ShelfLog {
    ghost also_owns = { λ _. ftrue };
}

impl ShelfLog {
    /// Nothing was given yet.
    pub fn new() -> ShelfLog
        ensures { result.given ≡ [] }
    {
        ShelfLog {}
    }

    /// The log after a call that was given this name, and answered so.
    pub fn and(&self, _name: &Text, _answer: &Result<Vec<u8>, Or<TakeFault>>) -> ShelfLog
        ensures { result.given ≡ given_after self.now.given _name.now _answer.now }
    {
        ShelfLog {}
    }
}

/// What a sink took, as a sink of one's own may keep it for its contract. It takes no memory, and no code can read it.
#[derive(Debug, Drop)]
pub struct SinkLog {
    pub ghost taken: { List ℕ },
}

impl Model for SinkLog {
    ghost also_owns = { λ _. ftrue };
}

impl SinkLog {
    /// Nothing was taken yet.
    pub fn new() -> SinkLog
        ensures { result.taken ≡ [] }
    {
        SinkLog {}
    }

    /// The log after these bytes were taken too.
    pub fn and(&self, _bytes: &[u8]) -> SinkLog
        ensures { result.taken ≡ self.now.taken ++ _bytes.now }
    {
        SinkLog {}
    }
}
