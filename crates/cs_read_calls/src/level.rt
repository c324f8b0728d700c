// Where a reader is, and the reader of what stands one level lower.

ghost use Rattle.std.specs.Prelude.{◌≡◌, ◌≤◌, IfOk};
ghost use Rattle.cs_grammar.specs.Reads.{Reads};
ghost use Rattle.cs_read_calls.specs.Asked.{inner_of, lead_height, Asked};

use cs_grammar::Fault;
use cs_lex::Cursor;
use cs_productions::{Lead, Measured, Part};
use cs_tree::Block;
use dc_base::Or;
use std::alloc::Global;

/// How many levels an expression may have from its start on, how many are left here, how many blocks may still be opened, and how
/// many pairs of brackets a type may have.
#[derive(Clone, Copy, Debug)]
pub struct Depth {
    pub levels: u16,
    pub left: u16,
    pub blocks: u16,
    pub ranks: u16,
}

/// What is asked for one level lower.
#[derive(Clone, Copy, Debug)]
pub enum Ask {
    Form(Part),
    Lead,
    Block,
}

/// What was read there.
#[derive(Debug, Drop)]
pub enum Got {
    Form(Measured),
    Lead(Lead),
    Block(Block),
}

/// A place at some depth, and the reader of what stands one level lower.
#[derive(Drop)]
pub struct Level<F> {
    pub at: Depth,
    pub read: F,
}

impl<F: Fn(Global, &mut Cursor, Ask) -> Result<Got, Or<Fault>>> Level<F> {
    /// How many levels are left.
    pub fn levels(&self) -> u16
        ensures { result ≡ self.now.at.left }
    {
        self.at.left
    }

    fn read_form(
        &self,
        alloc: Global,
        tokens: &mut Cursor,
        part: Part,
    ) -> Result<Measured, Or<Fault>>
        requires callable { F.IsAlwaysCallable self.now.read }
        requires exact { (alloc : _) (tokens : _) (ask : _) (result : _) (after : _) → F.post self.now.read alloc tokens ask result after → Asked self.now.at ask tokens.now result after.now }
        ensures { Reads (((inner_of self.now.at).forms part).reads tokens.old) result tokens.new }
    {
        match (self.read)(alloc, tokens, Ask::Form(part))? {
            Got::Form(form) => Ok(form),
            _ => unreachable!(),
        }
    }

    /// Reads an expression one level lower.
    pub fn form(
        &self,
        alloc: Global,
        tokens: &mut Cursor,
        part: Part,
    ) -> Result<Measured, Or<Fault>>
        requires callable { F.IsAlwaysCallable self.now.read }
        requires exact { (alloc : _) (tokens : _) (ask : _) (result : _) (after : _) → F.post self.now.read alloc tokens ask result after → Asked self.now.at ask tokens.now result after.now }
        ensures reads { Reads (((inner_of self.now.at).forms part).reads tokens.old) result tokens.new }
        ensures within { IfOk result (λ a. a.height ≤ self.now.at.left) }
    {
        self.read_form(alloc, tokens, part)
    }

    fn read_lead(&self, alloc: Global, tokens: &mut Cursor) -> Result<Lead, Or<Fault>>
        requires callable { F.IsAlwaysCallable self.now.read }
        requires exact { (alloc : _) (tokens : _) (ask : _) (result : _) (after : _) → F.post self.now.read alloc tokens ask result after → Asked self.now.at ask tokens.now result after.now }
        ensures { Reads ((inner_of self.now.at).lead.reads tokens.old) result tokens.new }
    {
        match (self.read)(alloc, tokens, Ask::Lead)? {
            Got::Lead(lead) => Ok(lead),
            _ => unreachable!(),
        }
    }

    /// Reads what begins with `global` inside parentheses, one level lower.
    pub fn lead(&self, alloc: Global, tokens: &mut Cursor) -> Result<Lead, Or<Fault>>
        requires callable { F.IsAlwaysCallable self.now.read }
        requires exact { (alloc : _) (tokens : _) (ask : _) (result : _) (after : _) → F.post self.now.read alloc tokens ask result after → Asked self.now.at ask tokens.now result after.now }
        ensures reads { Reads ((inner_of self.now.at).lead.reads tokens.old) result tokens.new }
        ensures within { IfOk result (λ l. lead_height l ≤ self.now.at.left) }
    {
        self.read_lead(alloc, tokens)
    }

    /// Reads the block of a lambda or a statement.
    pub fn block(&self, alloc: Global, tokens: &mut Cursor) -> Result<Block, Or<Fault>>
        requires callable { F.IsAlwaysCallable self.now.read }
        requires exact { (alloc : _) (tokens : _) (ask : _) (result : _) (after : _) → F.post self.now.read alloc tokens ask result after → Asked self.now.at ask tokens.now result after.now }
        ensures { Reads ((inner_of self.now.at).block.reads tokens.old) result tokens.new }
    {
        match (self.read)(alloc, tokens, Ask::Block)? {
            Got::Block(block) => Ok(block),
            _ => unreachable!(),
        }
    }
}
