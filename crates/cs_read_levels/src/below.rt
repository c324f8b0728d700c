// The readers of all that stands below a level, tied to one another.

ghost use Rattle.std.specs.Prelude.{◌≡◌, ◌+◌};
ghost use Rattle.cs_grammar.specs.Reads.{Reads};
ghost use Rattle.cs_productions.specs.Levels.{forms_at};
ghost use Rattle.cs_productions.specs.Operators.{lead as lead_of};
ghost use Rattle.cs_statements.specs.Blocks.{block_at as block_of};
ghost use Rattle.cs_statements.specs.Jumps.{expression as expression_of};
ghost use Rattle.cs_read_calls.specs.Asked.{inner_of, Asked};
ghost use Rattle.cs_read_actions.specs.Place.{WholeRead};

use crate::last::{deeper, led_alone, lower, name_alone};
use cs_grammar::Fault;
use cs_lex::Cursor;
use cs_productions::{Lead, Measured, Part};
use cs_read_actions::Place;
use cs_read_calls::{Ask, Depth, Got, Level};
use cs_read_forms::{form, lead};
use cs_read_statements::{block as block_behind, empty_block};
use cs_tree::Block;
use dc_base::Or;
use std::alloc::Global;

/// Reads what stands one level lower than this place.
#[cycle(levels)]
pub fn read_below(alloc: Global, tokens: &mut Cursor, at: Depth, ask: Ask) -> Result<Got, Or<Fault>>
    ensures { Asked at ask tokens.old result tokens.new }
{
    match ask {
        Ask::Form(part) => Ok(Got::Form(form_below(alloc, tokens, at, part)?)),
        Ask::Lead => Ok(Got::Lead(lead_below(alloc, tokens, at)?)),
        Ask::Block => Ok(Got::Block(block_below(alloc, tokens, at)?)),
    }
}

#[cycle(levels)]
fn form_below(
    alloc: Global,
    tokens: &mut Cursor,
    at: Depth,
    part: Part,
) -> Result<Measured, Or<Fault>>
    ensures { Reads (((inner_of at).forms part).reads tokens.old) result tokens.new }
{
    if at.left == 0 {
        return name_alone(alloc, tokens);
    }
    form_at(alloc, tokens, lower(at), part)
}

#[cycle(levels)]
fn lead_below(alloc: Global, tokens: &mut Cursor, at: Depth) -> Result<Lead, Or<Fault>>
    ensures { Reads ((inner_of at).lead.reads tokens.old) result tokens.new }
{
    if at.left == 0 {
        return led_alone(alloc, tokens);
    }
    lead_at(alloc, tokens, lower(at))
}

#[cycle(levels)]
fn block_below(alloc: Global, tokens: &mut Cursor, at: Depth) -> Result<Block, Or<Fault>>
    ensures { Reads ((inner_of at).block.reads tokens.old) result tokens.new }
{
    if at.blocks == 0 {
        return empty_block(alloc, tokens);
    }
    block_at(alloc, tokens, deeper(at))
}

/// Reads a part of an expression at this place.
#[cycle(levels)]
fn form_at(alloc: Global, tokens: &mut Cursor, at: Depth, part: Part) -> Result<Measured, Or<Fault>>
    ensures { Reads ((forms_at at.left (inner_of at) part).reads tokens.old) result tokens.new }
{
    let level = Level {
        at,
        read: |alloc: Global, tokens: &mut Cursor, ask: Ask| -> Result<Got, Or<Fault>>
            ensures { Asked at ask tokens.old result tokens.new }
        { read_below(alloc, tokens, at, ask) },
    };
    form(&level, alloc, tokens, part)
}

#[cycle(levels)]
fn lead_at(alloc: Global, tokens: &mut Cursor, at: Depth) -> Result<Lead, Or<Fault>>
    ensures { Reads ((lead_of at.left (inner_of at)).reads tokens.old) result tokens.new }
{
    let level = Level {
        at,
        read: |alloc: Global, tokens: &mut Cursor, ask: Ask| -> Result<Got, Or<Fault>>
            ensures { Asked at ask tokens.old result tokens.new }
        { read_below(alloc, tokens, at, ask) },
    };
    lead(&level, alloc, tokens)
}

/// Reads a block whose statements stand at this place.
#[cycle(levels)]
fn block_at(alloc: Global, tokens: &mut Cursor, at: Depth) -> Result<Block, Or<Fault>>
    requires { at.left ≡ at.levels }
    ensures { Reads ((block_of at.levels at.ranks (at.blocks + 1)).reads tokens.old) result tokens.new }
{
    let level = Level {
        at,
        read: |alloc: Global, tokens: &mut Cursor, ask: Ask| -> Result<Got, Or<Fault>>
            ensures { Asked at ask tokens.old result tokens.new }
        { read_below(alloc, tokens, at, ask) },
    };
    let whole = |alloc: Global, tokens: &mut Cursor| -> Result<Measured, Or<Fault>>
        ensures { WholeRead at tokens.old result tokens.new }
    { form_at(alloc, tokens, at, Part::Whole) };
    block_behind(&Place { level, whole }, alloc, tokens)
}

/// Reads an expression at this place: of at most so many levels as are left.
pub fn expression(alloc: Global, tokens: &mut Cursor, at: Depth) -> Result<Measured, Or<Fault>>
    ensures { Reads ((expression_of at.left (inner_of at)).reads tokens.old) result tokens.new }
{
    form_at(alloc, tokens, at, Part::Whole)
}

/// Reads a block: with it, at most so many blocks are open in one another as are left, and an expression in it has at most all levels.
pub fn block(alloc: Global, tokens: &mut Cursor, at: Depth) -> Result<Block, Or<Fault>>
    ensures { Reads ((block_of at.levels at.ranks at.blocks).reads tokens.old) result tokens.new }
{
    block_below(alloc, tokens, at)
}
