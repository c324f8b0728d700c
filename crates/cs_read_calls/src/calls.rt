// Arguments and what stands behind a primary expression.

ghost use Rattle.std.specs.Prelude.{◌≡◌, ◌<◌, ◌≤◌, ◌+◌, [], ◌∷◌, true, IfOk};
ghost use Rattle.cs_grammar.specs.Grammar.{turns};
ghost use Rattle.cs_grammar.specs.Reads.{Reads};
ghost use Rattle.cs_productions.specs.Calls.{no_args, one_arg as one_arg_of, one_more_arg as one_more_arg_of, some_args as some_args_of, arguments as arguments_of, member_of, call_of, called as called_of, one_member as one_member_of, one_index as one_index_of, one_postfix as one_postfix_of, postfixes as postfixes_of};
ghost use Rattle.cs_productions.specs.Kinds.{comma};
ghost use Rattle.cs_productions.specs.Tokens.{kind as kind_of};
ghost use Rattle.cs_read_calls.specs.Asked.{inner_of, Asked};

use crate::level::{Ask, Got, Level};
use crate::nodes::{call, element, held, member, too_deep};
use cs_grammar::Fault;
use cs_lex::{Cursor, begins, expect};
use cs_productions::{Args, Measured, Part};
use cs_read_types::kinds::{BRACKET, COMMA, DOT, PAREN, UNBRACKET, UNPAREN};
use cs_read_types::{any_name, way};
use cs_tree::{Arg, Name};
use dc_base::{Items, Or};
use std::alloc::Global;

impl<F: Fn(Global, &mut Cursor, Ask) -> Result<Got, Or<Fault>>> Level<F> {
    fn one_arg(&self, alloc: Global, tokens: &mut Cursor, before: Args) -> Result<Args, Or<Fault>>
        requires callable { F.IsAlwaysCallable self.now.read }
        requires exact { (alloc : _) (tokens : _) (ask : _) (result : _) (after : _) → F.post self.now.read alloc tokens ask result after → Asked self.now.at ask tokens.now result after.now }
        requires within { before.height ≤ self.now.at.left }
        ensures reads { Reads ((one_arg_of (inner_of self.now.at) before).reads tokens.old) result tokens.new }
        ensures within { IfOk result (λ args. args.height ≤ self.now.at.left) }
    {
        let way = way(tokens)?;
        let next = self.form(alloc, tokens, Part::Whole)?;
        let Args { mut args, height } = before;
        args.push(Arg {
            way,
            form: next.form,
        })?;
        Ok(Args {
            args,
            height: height.max(next.height),
        })
    }

    fn one_more_arg(
        &self,
        alloc: Global,
        tokens: &mut Cursor,
        before: Args,
    ) -> Result<Args, Or<Fault>>
        requires callable { F.IsAlwaysCallable self.now.read }
        requires exact { (alloc : _) (tokens : _) (ask : _) (result : _) (after : _) → F.post self.now.read alloc tokens ask result after → Asked self.now.at ask tokens.now result after.now }
        requires within { before.height ≤ self.now.at.left }
        ensures reads { Reads ((one_more_arg_of (inner_of self.now.at) before).reads tokens.old) result tokens.new }
        ensures within { IfOk result (λ args. args.height ≤ self.now.at.left) }
    {
        expect(tokens, COMMA)?;
        self.one_arg(alloc, tokens, before)
    }

    fn more_args(&self, alloc: Global, tokens: &mut Cursor, first: Args) -> Result<Args, Or<Fault>>
        requires callable { F.IsAlwaysCallable self.now.read }
        requires exact { (alloc : _) (tokens : _) (ask : _) (result : _) (after : _) → F.post self.now.read alloc tokens ask result after → Asked self.now.at ask tokens.now result after.now }
        requires within { first.height ≤ self.now.at.left }
        ensures reads { Reads ((turns kind_of (comma ∷ []) (λ _. true) (one_more_arg_of (inner_of self.now.at)) first).reads tokens.old) result tokens.new }
        ensures within { IfOk result (λ args. args.height ≤ self.now.at.left) }
    {
        let mut args = first;
        'turns: for _ in 0..tokens.left() {
            if !begins(tokens, &[COMMA]) {
                return Ok(args);
            }
            args = self.one_more_arg(alloc, tokens, args)?;
        }
        Ok(args)
    }

    fn some_args(&self, alloc: Global, tokens: &mut Cursor) -> Result<Args, Or<Fault>>
        requires callable { F.IsAlwaysCallable self.now.read }
        requires exact { (alloc : _) (tokens : _) (ask : _) (result : _) (after : _) → F.post self.now.read alloc tokens ask result after → Asked self.now.at ask tokens.now result after.now }
        ensures reads { Reads ((some_args_of (inner_of self.now.at)).reads tokens.old) result tokens.new }
        ensures within { IfOk result (λ args. args.height ≤ self.now.at.left) }
    {
        let none = Args {
            args: Items::new(alloc),
            height: 0,
        };
        let first = self.one_arg(alloc, tokens, none)?;
        let all = self.more_args(alloc, tokens, first)?;
        expect(tokens, UNPAREN)?;
        Ok(all)
    }

    /// The arguments of a call, in parentheses.
    pub fn arguments(&self, alloc: Global, tokens: &mut Cursor) -> Result<Args, Or<Fault>>
        requires callable { F.IsAlwaysCallable self.now.read }
        requires exact { (alloc : _) (tokens : _) (ask : _) (result : _) (after : _) → F.post self.now.read alloc tokens ask result after → Asked self.now.at ask tokens.now result after.now }
        ensures reads { Reads ((arguments_of (inner_of self.now.at)).reads tokens.old) result tokens.new }
        ensures within { IfOk result (λ args. args.height ≤ self.now.at.left) }
    {
        expect(tokens, PAREN)?;
        if !begins(tokens, &[UNPAREN]) {
            return self.some_args(alloc, tokens);
        }
        expect(tokens, UNPAREN)?;
        Ok(Args {
            args: Items::new(alloc),
            height: 0,
        })
    }

    fn called(
        &self,
        alloc: Global,
        tokens: &mut Cursor,
        object: Measured,
        name: Name,
    ) -> Result<Measured, Or<Fault>>
        requires callable { F.IsAlwaysCallable self.now.read }
        requires exact { (alloc : _) (tokens : _) (ask : _) (result : _) (after : _) → F.post self.now.read alloc tokens ask result after → Asked self.now.at ask tokens.now result after.now }
        requires within { object.height < self.now.at.left }
        ensures { Reads ((called_of self.now.at.left (inner_of self.now.at) (object.height + 1) (call_of object name) (member_of object name)).reads tokens.old) result tokens.new }
    {
        let levels = u32::from(self.levels());
        if !begins(tokens, &[PAREN]) {
            return Ok(member(alloc, object, name)?);
        }
        if object.height + 1 >= levels {
            return Err(too_deep(object));
        }
        let args = self.arguments(alloc, tokens)?;
        Ok(call(alloc, object, name, args)?)
    }

    /// A member of an expression, and its call.
    pub fn one_member(
        &self,
        alloc: Global,
        tokens: &mut Cursor,
        object: Measured,
    ) -> Result<Measured, Or<Fault>>
        requires callable { F.IsAlwaysCallable self.now.read }
        requires exact { (alloc : _) (tokens : _) (ask : _) (result : _) (after : _) → F.post self.now.read alloc tokens ask result after → Asked self.now.at ask tokens.now result after.now }
        requires within { object.height < self.now.at.left }
        ensures { Reads ((one_member_of self.now.at.left (inner_of self.now.at) object).reads tokens.old) result tokens.new }
    {
        expect(tokens, DOT)?;
        let name = any_name(alloc, tokens)?;
        self.called(alloc, tokens, object, name)
    }

    /// An element of an array.
    pub fn one_index(
        &self,
        alloc: Global,
        tokens: &mut Cursor,
        array: Measured,
    ) -> Result<Measured, Or<Fault>>
        requires callable { F.IsAlwaysCallable self.now.read }
        requires exact { (alloc : _) (tokens : _) (ask : _) (result : _) (after : _) → F.post self.now.read alloc tokens ask result after → Asked self.now.at ask tokens.now result after.now }
        requires within { array.height ≤ self.now.at.left }
        ensures { Reads ((one_index_of (inner_of self.now.at) array).reads tokens.old) result tokens.new }
    {
        // No height reaches the end of its type.
        let _levels = self.levels();
        let array = held(alloc, array)?;
        expect(tokens, BRACKET)?;
        let index = self.form(alloc, tokens, Part::Whole)?;
        expect(tokens, UNBRACKET)?;
        Ok(element(alloc, array, index)?)
    }

    fn one_postfix(
        &self,
        alloc: Global,
        tokens: &mut Cursor,
        a: Measured,
    ) -> Result<Measured, Or<Fault>>
        requires callable { F.IsAlwaysCallable self.now.read }
        requires exact { (alloc : _) (tokens : _) (ask : _) (result : _) (after : _) → F.post self.now.read alloc tokens ask result after → Asked self.now.at ask tokens.now result after.now }
        requires within { a.height < self.now.at.left }
        ensures { Reads ((one_postfix_of self.now.at.left (inner_of self.now.at) a).reads tokens.old) result tokens.new }
    {
        if begins(tokens, &[DOT]) {
            return self.one_member(alloc, tokens, a);
        }
        self.one_index(alloc, tokens, a)
    }

    /// The members and elements that stand behind an expression.
    pub fn postfixes(
        &self,
        alloc: Global,
        tokens: &mut Cursor,
        first: Measured,
    ) -> Result<Measured, Or<Fault>>
        requires callable { F.IsAlwaysCallable self.now.read }
        requires exact { (alloc : _) (tokens : _) (ask : _) (result : _) (after : _) → F.post self.now.read alloc tokens ask result after → Asked self.now.at ask tokens.now result after.now }
        ensures { Reads ((postfixes_of self.now.at.left (inner_of self.now.at) first).reads tokens.old) result tokens.new }
    {
        let mut a = first;
        'turns: for _ in 0..tokens.left() {
            if !begins(tokens, &[DOT, BRACKET]) {
                return Ok(a);
            }
            if a.height >= u32::from(self.at.left) {
                return Err(too_deep(a));
            }
            a = self.one_postfix(alloc, tokens, a)?;
        }
        Ok(a)
    }
}
