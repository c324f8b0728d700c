// A place among statements.

ghost use Rattle.cs_grammar.specs.Reads.{Reads};
ghost use Rattle.cs_statements.specs.Jumps.{expression as expression_of};
ghost use Rattle.cs_read_calls.specs.Asked.{inner_of};
ghost use Rattle.cs_read_actions.specs.Place.{WholeRead};

use cs_grammar::Fault;
use cs_lex::Cursor;
use cs_productions::Measured;
use cs_read_calls::Level;
use dc_base::Or;
use std::alloc::Global;

/// A place among statements: the level of the expressions in them, and the reader of a whole one.
#[derive(Drop)]
pub struct Place<F, G> {
    pub level: Level<F>,
    pub whole: G,
}

/// Reads an expression.
pub fn expression<F, G: Fn(Global, &mut Cursor) -> Result<Measured, Or<Fault>>>(
    place: &Place<F, G>,
    alloc: Global,
    tokens: &mut Cursor,
) -> Result<Measured, Or<Fault>>
    requires whole_callable { G.IsAlwaysCallable place.now.whole }
    requires whole_exact { (alloc : _) (tokens : _) (result : _) (after : _) → G.post place.now.whole alloc tokens result after → WholeRead place.now.level.at tokens.now result after.now }
    ensures { Reads ((expression_of place.now.level.at.left (inner_of place.now.level.at)).reads tokens.old) result tokens.new }
{
    (place.whole)(alloc, tokens)
}
