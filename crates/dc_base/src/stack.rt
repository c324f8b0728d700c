// A stack, seen from its top.

ghost use Rattle.std.specs.Prelude.{◌≡◌, ◌∷◌, [], ◌↔◌, IsTrue, MatchOption, OnErr, OnOk};

use crate::NoMemory;
use std::alloc::Global;
use std::marker::Model;

/// A stack, which contracts see as the list of its items, the top first.
#[derive(Debug, Drop)]
pub struct Stack<T> {
    items: Vec<T>,
}

impl<T> Model for Stack<T> {
    ghost use Rattle.std.specs.Prelude.{List, reverse};
    ghost use Rattle.std.specs.Coded.{coded_list};

    ghost Value = { List T };

    ghost coded = { coded_list T.code };

    ghost view = { λ s. reverse s.items.items };
}

impl<T> Stack<T> {
    pub fn new(alloc: Global) -> Stack<T>
        ensures { result ≡ [] }
    {
        Stack {
            items: Vec::new(alloc),
        }
    }

    pub fn is_empty(&self) -> bool
        ensures { IsTrue result ↔ (self.now ≡ []) }
    {
        self.items.is_empty()
    }

    /// The topmost item, which goes.
    pub fn pop(&mut self) -> Option<T>
        ensures { MatchOption result ((self.old ≡ []) × (self.new ≡ [])) (λ top. self.old ≡ top ∷ self.new) }
    {
        self.items.pop()
    }
}

impl<T: Drop> Stack<T> {
    pub fn push(&mut self, top: T) -> Result<(), NoMemory>
        ensures ok { OnOk result (self.new ≡ top ∷ self.old) }
        ensures err { OnErr result (self.new ≡ self.old) }
    {
        self.items.push(top)?;
        Ok(())
    }
}

#[cfg(test)]
mod tests {
    use super::*;
    use crate::Seq;
    use std::test::Fail;

    #[test]
    fn gives_back_the_last_first(rt: HostRuntime) -> Result<(), Fail> {
        let mut stack = Stack::new(rt.alloc());
        let items = Seq::of(Vec::from_slice(rt.alloc(), &[1, 2])?);
        for item in items.items() {
            stack.push(*item)?;
        }
        assert_eq!(rt; stack.pop(), Some(2));
        assert_eq!(rt; items.into_vec().as_slice(), [1, 2].as_slice());
        assert!(rt; !stack.is_empty());
        Ok(())
    }
}
