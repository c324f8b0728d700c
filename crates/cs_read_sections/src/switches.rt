// `switch`: labels, sections.

ghost use Rattle.std.specs.Prelude.{◌≡◌, ◌<◌, nat_lt, [], ◌∷◌, true, IfOk};
ghost use Rattle.cs_grammar.specs.Grammar.{turns};
ghost use Rattle.cs_grammar.specs.Reads.{Reads};
ghost use Rattle.cs_productions.specs.Kinds.{kw_case, kw_default};
ghost use Rattle.cs_productions.specs.Tokens.{kind as kind_of, sign, word_literal, literal_of};
ghost use Rattle.cs_statements.specs.Structured.{case_label as case_label_of, default_label as default_label_of, label as label_of, one_more_label as one_more_label_of, section as section_of, one_more_section as one_more_section_of, of_switch as of_switch_of};
ghost use Rattle.cs_read_calls.specs.Asked.{inner_of, Asked};
ghost use Rattle.cs_read_actions.specs.Place.{WholeRead};
ghost use Rattle.cs_read_sections.specs.Tails.{done, switch_behind as switch_behind_of};

use cs_grammar::Fault;
use cs_lex::{Cursor, begins, expect, take_one};
use cs_productions::Measured;
use cs_read_actions::{Place, blocks};
use cs_read_calls::{Ask, Got, Level};
use cs_read_heads::kinds::{KW_CASE, KW_SWITCH};
use cs_read_heads::tested;
use cs_read_types::kinds::{BRACE, COLON, KW_DEFAULT, KW_NULL, KW_TRUE, UNBRACE};
use cs_read_types::place;
use cs_token::{Lexeme, Token};
use cs_tree::{Form, Literal, Section, Spot, SwitchLabel, Syntax};
use dc_base::{Items, NoMemory, Or, Seq};
use std::alloc::Global;

/// Literals.
const LITERALS: [u16; 7] = [1, 8, 2, 3, 124, 83, 101];

fn word(kind: u16) -> Literal
    ensures { result ≡ word_literal kind }
{
    if kind == KW_NULL {
        Literal::Null
    } else {
        Literal::Bool {
            value: kind == KW_TRUE,
        }
    }
}

/// The literal that a token is.
fn literal(alloc: Global, token: &Token) -> Result<Literal, NoMemory>
    ensures { IfOk result (λ literal. literal ≡ literal_of token.now.lexeme) }
{
    let kind = token.kind();
    match token.lexeme(alloc)? {
        Lexeme::Number(value, suffix) => Ok(Literal::Number { value, suffix }),
        Lexeme::Char(unit) => Ok(Literal::Char { unit }),
        Lexeme::Literal(units) => Ok(Literal::Text { units }),
        _ => Ok(word(kind)),
    }
}

fn case_label(alloc: Global, tokens: &mut Cursor) -> Result<SwitchLabel, Or<Fault>>
    ensures { Reads (case_label_of.reads tokens.old) result tokens.new }
{
    let spot = place(tokens, KW_CASE)?;
    let token = take_one(tokens, &LITERALS)?;
    expect(tokens, COLON)?;
    let literal = literal(alloc, &token)?;
    Ok(SwitchLabel::Case { spot, literal })
}

fn default_label(tokens: &mut Cursor) -> Result<SwitchLabel, Or<Fault>>
    ensures { Reads (default_label_of.reads tokens.old) result tokens.new }
{
    let spot = place(tokens, KW_DEFAULT)?;
    expect(tokens, COLON)?;
    Ok(SwitchLabel::Default { spot })
}

fn label(alloc: Global, tokens: &mut Cursor) -> Result<SwitchLabel, Or<Fault>>
    ensures { Reads (label_of.reads tokens.old) result tokens.new }
{
    if begins(tokens, &[KW_CASE]) {
        return case_label(alloc, tokens);
    }
    default_label(tokens)
}

fn one_more_label(
    alloc: Global,
    tokens: &mut Cursor,
    mut labels: Seq<SwitchLabel>,
) -> Result<Seq<SwitchLabel>, Or<Fault>>
    ensures { Reads ((one_more_label_of labels).reads tokens.old) result tokens.new }
{
    let next = label(alloc, tokens)?;
    labels.push(next)?;
    Ok(labels)
}

fn more_labels(
    alloc: Global,
    tokens: &mut Cursor,
    first: Seq<SwitchLabel>,
) -> Result<Seq<SwitchLabel>, Or<Fault>>
    ensures { Reads ((turns kind_of (kw_case ∷ kw_default ∷ []) (λ _. true) one_more_label_of first).reads tokens.old) result tokens.new }
{
    let mut labels = first;
    'turns: for _ in 0..tokens.left() {
        if !begins(tokens, &[KW_CASE, KW_DEFAULT]) {
            return Ok(labels);
        }
        labels = one_more_label(alloc, tokens, labels)?;
    }
    Ok(labels)
}

fn section<F: Fn(Global, &mut Cursor, Ask) -> Result<Got, Or<Fault>>>(
    level: &Level<F>,
    alloc: Global,
    tokens: &mut Cursor,
) -> Result<Section, Or<Fault>>
    requires callable { F.IsAlwaysCallable level.now.read }
    requires exact { (alloc : _) (tokens : _) (ask : _) (result : _) (after : _) → F.post level.now.read alloc tokens ask result after → Asked level.now.at ask tokens.now result after.now }
    ensures { Reads ((section_of (inner_of level.now.at)).reads tokens.old) result tokens.new }
{
    let first = label(alloc, tokens)?;
    let mut labels = Seq::new(alloc);
    labels.push(first)?;
    let labels = more_labels(alloc, tokens, labels)?;
    let block = level.block(alloc, tokens)?;
    Ok(Section { labels, block })
}

fn one_more_section<F: Fn(Global, &mut Cursor, Ask) -> Result<Got, Or<Fault>>>(
    level: &Level<F>,
    alloc: Global,
    tokens: &mut Cursor,
    mut sections: Items<Section>,
) -> Result<Items<Section>, Or<Fault>>
    requires callable { F.IsAlwaysCallable level.now.read }
    requires exact { (alloc : _) (tokens : _) (ask : _) (result : _) (after : _) → F.post level.now.read alloc tokens ask result after → Asked level.now.at ask tokens.now result after.now }
    ensures { Reads ((one_more_section_of (inner_of level.now.at) sections).reads tokens.old) result tokens.new }
{
    let next = section(level, alloc, tokens)?;
    sections.push(next)?;
    Ok(sections)
}

fn sections<F: Fn(Global, &mut Cursor, Ask) -> Result<Got, Or<Fault>>>(
    level: &Level<F>,
    alloc: Global,
    tokens: &mut Cursor,
) -> Result<Items<Section>, Or<Fault>>
    requires callable { F.IsAlwaysCallable level.now.read }
    requires exact { (alloc : _) (tokens : _) (ask : _) (result : _) (after : _) → F.post level.now.read alloc tokens ask result after → Asked level.now.at ask tokens.now result after.now }
    ensures { Reads ((turns kind_of (kw_case ∷ kw_default ∷ []) (λ _. nat_lt 0 (inner_of level.now.at).blocks) (one_more_section_of (inner_of level.now.at)) []).reads tokens.old) result tokens.new }
{
    let mut sections = Items::new(alloc);
    'turns: for _ in 0..tokens.left() {
        if !begins(tokens, &[KW_CASE, KW_DEFAULT]) {
            return Ok(sections);
        }
        if blocks(level) == 0 {
            return Err(Or::Fault(Fault::TooDeep));
        }
        sections = one_more_section(level, alloc, tokens, sections)?;
    }
    Ok(sections)
}

/// A sign behind what was read, which goes where it isn't there.
fn ended<A: Drop>(tokens: &mut Cursor, end: u16, read: A) -> Result<A, Or<Fault>>
    ensures same { IfOk result (λ a. a ≡ read) }
    ensures reads { Reads ((sign end).reads tokens.old) (done result) tokens.new }
{
    expect(tokens, end)?;
    Ok(read)
}

fn switch_behind<F: Fn(Global, &mut Cursor, Ask) -> Result<Got, Or<Fault>>>(
    level: &Level<F>,
    alloc: Global,
    tokens: &mut Cursor,
    spot: Spot,
    value: Form,
) -> Result<Syntax, Or<Fault>>
    requires callable { F.IsAlwaysCallable level.now.read }
    requires exact { (alloc : _) (tokens : _) (ask : _) (result : _) (after : _) → F.post level.now.read alloc tokens ask result after → Asked level.now.at ask tokens.now result after.now }
    ensures { Reads ((switch_behind_of (inner_of level.now.at) spot value).reads tokens.old) result tokens.new }
{
    expect(tokens, BRACE)?;
    let sections = sections(level, alloc, tokens)?;
    let sections = ended(tokens, UNBRACE, sections)?;
    Ok(Syntax::Switch {
        spot,
        value,
        sections,
    })
}

/// `switch (a) { case 7: { } }`
pub fn of_switch<
    F: Fn(Global, &mut Cursor, Ask) -> Result<Got, Or<Fault>>,
    G: Fn(Global, &mut Cursor) -> Result<Measured, Or<Fault>>,
>(here: &Place<F, G>, alloc: Global, tokens: &mut Cursor) -> Result<Syntax, Or<Fault>>
    requires callable { F.IsAlwaysCallable here.now.level.read }
    requires exact { (alloc : _) (tokens : _) (ask : _) (result : _) (after : _) → F.post here.now.level.read alloc tokens ask result after → Asked here.now.level.at ask tokens.now result after.now }
    requires whole_callable { G.IsAlwaysCallable here.now.whole }
    requires whole_exact { (alloc : _) (tokens : _) (result : _) (after : _) → G.post here.now.whole alloc tokens result after → WholeRead here.now.level.at tokens.now result after.now }
    ensures { Reads ((of_switch_of here.now.level.at.left (inner_of here.now.level.at)).reads tokens.old) result tokens.new }
{
    let spot = place(tokens, KW_SWITCH)?;
    let value = tested(here, alloc, tokens)?;
    switch_behind(&here.level, alloc, tokens, spot, value.form)
}
