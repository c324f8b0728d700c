// What may stand behind `global::A.B` at the start of a statement.

ghost use Rattle.std.specs.Prelude.{◌≡◌, ◌<◌};
ghost use Rattle.cs_grammar.specs.Reads.{Reads};
ghost use Rattle.cs_productions.specs.Types.{global_type as global_type_of};
ghost use Rattle.cs_statements.specs.Actions.{array_declared as array_declared_of, called_or_alone as called_or_alone_of};
ghost use Rattle.cs_read_calls.specs.Asked.{inner_of, Asked};
ghost use Rattle.cs_read_actions.specs.Place.{WholeRead};

use crate::actions::declared;
use crate::leaves::pairs;
use crate::place::Place;
use cs_grammar::Fault;
use cs_lex::{Cursor, begins, expect};
use cs_productions::Measured;
use cs_read_calls::{Ask, Got, Level, leaf};
use cs_read_primaries::called_path;
use cs_read_types::kinds::{PAREN, UNBRACKET};
use cs_read_types::ranks;
use cs_tree::{Form, Spot, Syntax, TypeForm, TypeName};
use dc_base::{Or, Seq, Text};
use std::alloc::Global;

/// A declaration behind the first `[` of its array type, whose element is this.
pub fn array_declared<F, G: Fn(Global, &mut Cursor) -> Result<Measured, Or<Fault>>>(
    here: &Place<F, G>,
    alloc: Global,
    tokens: &mut Cursor,
    element: TypeForm,
) -> Result<Syntax, Or<Fault>>
    requires whole_callable { G.IsAlwaysCallable here.now.whole }
    requires whole_exact { (alloc : _) (tokens : _) (result : _) (after : _) → G.post here.now.whole alloc tokens result after → WholeRead here.now.level.at tokens.now result after.now }
    requires within { element.ranks < 65536 }
    ensures { Reads ((array_declared_of here.now.level.at.left (inner_of here.now.level.at) element).reads tokens.old) result tokens.new }
{
    expect(tokens, UNBRACKET)?;
    let array = TypeForm {
        ranks: element.ranks + 1,
        ..element
    };
    let ty = ranks(tokens, pairs(&here.level), array)?;
    declared(here, alloc, tokens, ty)
}

/// A type without brackets, by its path.
pub fn global_type(spot: Spot, path: Seq<Text>) -> TypeForm
    ensures { result ≡ global_type_of spot path }
{
    TypeForm {
        spot,
        name: TypeName::Global { path },
        ranks: 0,
    }
}

/// A path, or its call.
pub fn called_or_alone<F: Fn(Global, &mut Cursor, Ask) -> Result<Got, Or<Fault>>>(
    level: &Level<F>,
    alloc: Global,
    tokens: &mut Cursor,
    spot: Spot,
    path: Seq<Text>,
) -> Result<Measured, Or<Fault>>
    requires callable { F.IsAlwaysCallable level.now.read }
    requires exact { (alloc : _) (tokens : _) (ask : _) (result : _) (after : _) → F.post level.now.read alloc tokens ask result after → Asked level.now.at ask tokens.now result after.now }
    ensures { Reads ((called_or_alone_of level.now.at.left (inner_of level.now.at) spot path).reads tokens.old) result tokens.new }
{
    if !begins(tokens, &[PAREN]) {
        return Ok(leaf(Form::Global { spot, path }, spot));
    }
    if level.levels() == 0 {
        return Err(Or::Fault(Fault::TooDeep));
    }
    called_path(level, alloc, tokens, spot, path)
}
