// A text within its depths.

ghost use Rattle.std.specs.Prelude.{◌≡◌, ◌≤◌, ◌<◌, ◌+◌, ◌^◌, length};
ghost use Rattle.std.specs.Str.{chars};
ghost use Rattle.cs_read_calls.specs.Asked.{Asked};
ghost use Rattle.cs_read_texts.specs.Texts.{within, beyond, IsRead};
ghost use Rattle.cs_read.specs.Depths.{text_grammar, wider_grammar};

use cs_grammar::Fault;
use cs_lex::Cursor;
use cs_read_calls::{Ask, Depth, Got, Level};
use cs_read_levels::read_below;
use cs_read_texts::{ReadFault, unit_of_text};
use cs_tree::Unit;
use dc_base::Or;
use std::alloc::Global;

/// How many levels an expression may have.
const LEVELS: u16 = 400;

/// How many pairs of brackets a type may have.
const RANKS: u16 = 33;

/// How many blocks may be open in one another.
const BLOCKS: u16 = 200;

/// How many types may be open in one that stands in no other.
const NESTING: u16 = 200;

/// Reads a text within these depths, one level below a whole expression.
fn read_within(alloc: Global, source: &str, at: Depth, nesting: u16) -> Result<Unit, Or<ReadFault>>
    requires whole { at.left ≡ at.levels + 1 }
    requires ranks { 0 < at.ranks }
    requires blocks { 0 < at.blocks }
    requires size { length source.now ≤ 2 ^ 31 }
    ensures { IsRead (within at nesting) (beyond at nesting) (chars source.now) result }
{
    let level = Level {
        at,
        read: |alloc: Global, tokens: &mut Cursor, ask: Ask| -> Result<Got, Or<Fault>>
            ensures { Asked at ask tokens.old result tokens.new }
        { read_below(alloc, tokens, at, ask) },
    };
    unit_of_text(&level, alloc, source, nesting)
}

/// Reads a text: its tree, or its first fault. `Lex` stands where no token stands, `Parse` at the first token with which no text of the
/// grammar goes on, `Deep` where texts go on with it that have more levels. Lines and columns count from 1, columns in characters.
pub fn read(alloc: Global, source: &str) -> Result<Unit, Or<ReadFault>>
    requires size { length source.now ≤ 2 ^ 31 }
    ensures { IsRead text_grammar wider_grammar (chars source.now) result }
{
    let at = Depth {
        levels: LEVELS,
        left: LEVELS + 1,
        blocks: BLOCKS,
        ranks: RANKS,
    };
    read_within(alloc, source, at, NESTING)
}
