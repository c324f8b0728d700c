// What stands below the last level, and a place one level lower.

ghost use Rattle.std.specs.Prelude.{◌≡◌, ◌+◌, ◌<◌};
ghost use Rattle.cs_grammar.specs.Reads.{Reads};
ghost use Rattle.cs_productions.specs.Levels.{name_alone as name_alone_of, led_alone as led_alone_of};

use cs_grammar::Fault;
use cs_lex::{Cursor, take_one};
use cs_productions::{Lead, Measured};
use cs_read_calls::{Depth, leaf};
use cs_read_types::{global_leaf, spot, text};
use cs_tree::Form;
use dc_base::Or;
use std::alloc::Global;

/// The kind of a name.
const NAME: u16 = 0;

/// A name, which is never asked for.
pub(crate) fn name_alone(alloc: Global, tokens: &mut Cursor) -> Result<Measured, Or<Fault>>
    ensures { Reads (name_alone_of.reads tokens.old) result tokens.new }
{
    let token = take_one(tokens, &[NAME])?;
    let text = text(alloc, &token)?;
    let spot = spot(&token);
    Ok(leaf(Form::Name { spot, text }, spot))
}

/// The name `global`, which is never asked for.
pub(crate) fn led_alone(alloc: Global, tokens: &mut Cursor) -> Result<Lead, Or<Fault>>
    ensures { Reads (led_alone_of.reads tokens.old) result tokens.new }
{
    let read = global_leaf(alloc, tokens)?;
    Ok(Lead::Form { read })
}

/// One level lower in the same expression.
pub(crate) fn lower(at: Depth) -> Depth
    requires { 0 < at.left }
    ensures levels { result.levels ≡ at.levels }
    ensures left { result.left + 1 ≡ at.left }
    ensures blocks { result.blocks ≡ at.blocks }
    ensures ranks { result.ranks ≡ at.ranks }
{
    Depth {
        left: at.left - 1,
        ..at
    }
}

/// The start of an expression one block deeper.
pub(crate) fn deeper(at: Depth) -> Depth
    requires { 0 < at.blocks }
    ensures levels { result.levels ≡ at.levels }
    ensures left { result.left ≡ at.levels }
    ensures blocks { result.blocks + 1 ≡ at.blocks }
    ensures ranks { result.ranks ≡ at.ranks }
    ensures within { result.left < 65536 }
{
    Depth {
        left: at.levels,
        blocks: at.blocks - 1,
        ..at
    }
}
