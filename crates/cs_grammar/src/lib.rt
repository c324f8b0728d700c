//! Grammars over tokens that are told apart by their kind, and readers that look at the next token alone.
//!
//! ```text
//! production (specs)          law (proofs)                     reader (src)
//! a Grammar: derives, reads   Exact: first, follow, null       a function over a Cursor
//!        what is believed     reads finds what is derived      answers what reads says
//! ```
//!
//! A grammar ([`specs/Grammar`]) says by `derives` which tokens make up a value, with no word on how they are read, and by
//! `reads` what a reader finds that looks at the next token alone. It is put together from `gives`, `one`, `bind` (with `do`),
//! `either`, `turns`, `limited`, `guarded` and `choice`. Each of them keeps `Exact` ([`specs/Exact`]), by the lemmas
//! `exact_gives`, `exact_one`, `then`, `or`, `repeat`, `within`, `guard` and `choose`. What follows from `Exact` alone
//! ([`specs/Whole`]): a list of tokens is one value and no other, or has one fault, at the first token with which no list of the
//! grammar goes on. `Deeper` says that a grammar is another one with more levels; with it the fault is one of depth exactly
//! where more levels would go on. Its lemmas begin with `deeper_`.
//!
//! # A production
//!
//! Its relation and its reading in one, in `specs/`, as the standard has it (here `"-" operand` behind a left operand):
//!
//! ```text
//! minus_one : Grammar Token Form → Form → Grammar Token Form
//! minus_one operand left = do _ ← sign minus; right ← operand; gives (Difference left right)
//! ```
//!
//! Its law, in `proofs/`: one expression in its shape. The kinds that it begins with and those at which it would go on stand in
//! the type; `wider` brings them to these lists, and each `refl` is a test on such lists that computes:
//!
//! ```text
//! exact_minus_one left o = wider refl refl (then (exact_sign minus token.Minus refl) refl (λ _. then o refl (λ _. exact_gives _)))
//! ```
//!
//! Its reader, in `src/`. A straight one wants no proof file:
//!
//! ```text
//! fn minus_one(alloc: Global, tokens: &mut Cursor, depth: u32, left: Form) -> Result<Form, Or<Fault>>
//!     ensures { Reads ((minus_one_of (operand_at depth) left).reads tokens.old) result tokens.new }
//! {
//!     expect(tokens, MINUS)?;
//!     let right = operand(alloc, tokens, depth)?;
//!     Ok(Form::Difference(Boxed::new(alloc, left)?, Boxed::new(alloc, right)?))
//! }
//! ```
//!
//! - `either` is an `if` on `begins`. Its first part must have tokens, and the kinds of the two must be disjoint.
//! - `turns` is `for _ in 0..tokens.left()`, left where the next token begins no round. Its invariant is that the whole is what
//!   `read_rounds` finds in the rounds that are left, kept by `round_on`.
//! - Levels are a recursion on a number: the lowest is `limited`, each further one holds the one below. A depth that a chain of
//!   rounds raises stands in the value, and `turns` and `guarded` ask it for room.
//! - Where two productions begin alike, what was read decides by `choice`, and no look ahead.
//!
//! The cursor over C# tokens, and `begins`, `expect`, `take_one` and `limit`, are those of the crate cs_lex.
#![tactic(auto)]

mod fault;

pub use fault::Fault;
