// Expressions and statements (ECMA-334, clauses 12 and 13). A lambda is an expression that holds statements.

ghost use Rattle.std.specs.Prelude.{◌≡◌};
ghost use Rattle.cs_tree.specs.Spots.{form_spot, syntax_spot};

use crate::types::{Name, Param, Spot, TypeForm, TypeName, Way};
use cs_token::Suffix;
use dc_base::{Boxed, Items, Seq, Text, Text16};

/// A literal (ECMA-334, 6.4.5).
#[derive(Debug, Drop)]
pub enum Literal {
    /// `7`, `7U`, `7L`, `7UL`
    Number { value: u64, suffix: Suffix },
    /// `'a'`: a UTF-16 unit
    Char { unit: u16 },
    /// `"text"`: UTF-16 units
    Text { units: Text16 },
    /// `true`, `false`
    Bool { value: bool },
    /// `null`
    Null,
}

/// An operator with one operand (ECMA-334, 12.9): `!`, `~`, `-`
#[derive(Clone, Copy, Debug, PartialEq, Eq)]
pub enum UnaryOp {
    Not,
    Complement,
    Minus,
}

/// An operator with two operands (ECMA-334, 12.10 to 12.14), from the one that binds least on.
#[derive(Clone, Copy, Debug, PartialEq, Eq)]
pub enum BinaryOp {
    /// `||`
    Or,
    /// `&&`
    And,
    /// `|`
    BitOr,
    /// `^`
    BitXor,
    /// `&`
    BitAnd,
    /// `==`
    Equal,
    /// `!=`
    Unequal,
    /// `<`
    Less,
    /// `>`
    Greater,
    /// `<=`
    AtMost,
    /// `>=`
    AtLeast,
    /// `<<`
    ShiftLeft,
    /// `>>`
    ShiftRight,
    /// `+`
    Add,
    /// `-`
    Sub,
    /// `*`
    Mul,
    /// `/`
    Div,
    /// `%`
    Rem,
}

/// The operator of a compound assignment (ECMA-334, 12.21.4): `+=`, `-=`, `*=`, `&=`, `|=`, `^=`
#[derive(Clone, Copy, Debug, PartialEq, Eq)]
pub enum AssignOp {
    Add,
    Sub,
    Mul,
    BitAnd,
    BitOr,
    BitXor,
}

/// An argument (ECMA-334, 12.6.2): `a`, `ref a`, `out a`
#[derive(Debug, Drop)]
#[cycle(tree)]
pub struct Arg {
    pub way: Way,
    pub form: Form,
}

/// An expression (ECMA-334, clause 12). Its place is that of its first token, a parenthesis included.
#[derive(Debug, Drop)]
#[cycle(tree)]
pub enum Form {
    /// `7U`, `'a'`, `"text"`, `true`, `null`
    Literal {
        spot: Spot,
        literal: Literal,
    },
    /// `x`
    Name {
        spot: Spot,
        text: Text,
    },
    /// `this`
    This {
        spot: Spot,
    },
    /// `a.b`
    Member {
        spot: Spot,
        object: Boxed<Form>,
        name: Name,
    },
    /// `a.b(c, ref d)`
    Call {
        spot: Spot,
        object: Boxed<Form>,
        name: Name,
        args: Items<Arg>,
    },
    /// `base.b`
    BaseMember {
        spot: Spot,
        name: Name,
    },
    /// `base.b(c)`
    BaseCall {
        spot: Spot,
        name: Name,
        args: Items<Arg>,
    },
    /// `global::A.B.f`: all names that stand behind one another
    Global {
        spot: Spot,
        path: Seq<Text>,
    },
    /// `global::A.B.M(c)`
    GlobalCall {
        spot: Spot,
        path: Seq<Text>,
        args: Items<Arg>,
    },
    /// `a[i]`
    Index {
        spot: Spot,
        array: Boxed<Form>,
        index: Boxed<Form>,
    },
    /// `new global::A.B(c)`
    New {
        spot: Spot,
        class: TypeName,
        args: Items<Arg>,
    },
    /// `new int[n][][]`: an array of `n` elements, here of type `int[][]`
    NewArray {
        spot: Spot,
        element: TypeForm,
        length: Boxed<Form>,
    },
    /// `checked(a)`
    Checked {
        spot: Spot,
        inner: Boxed<Form>,
    },
    /// `unchecked(a)`
    Unchecked {
        spot: Spot,
        inner: Boxed<Form>,
    },
    /// `default(int)`
    Default {
        spot: Spot,
        ty: TypeForm,
    },
    /// `(int x, ref int y) => { }`
    Lambda {
        spot: Spot,
        params: Seq<Param>,
        block: Block,
    },
    /// `!a`, `~a`, `-a`
    Unary {
        spot: Spot,
        op: UnaryOp,
        operand: Boxed<Form>,
    },
    /// `(int)a`
    Cast {
        spot: Spot,
        ty: TypeForm,
        operand: Boxed<Form>,
    },
    /// `a + b`
    Binary {
        spot: Spot,
        op: BinaryOp,
        left: Boxed<Form>,
        right: Boxed<Form>,
    },
    /// `a is int`
    Is {
        spot: Spot,
        operand: Boxed<Form>,
        ty: TypeForm,
    },
    /// `a as string`
    As {
        spot: Spot,
        operand: Boxed<Form>,
        ty: TypeForm,
    },
    /// `a ? b : c`
    Conditional {
        spot: Spot,
        test: Boxed<Form>,
        on_true: Boxed<Form>,
        on_false: Boxed<Form>,
    },
}

/// `{ a; b; }` (ECMA-334, 13.3), with the place of its `}`
#[derive(Debug, Drop)]
#[cycle(tree)]
pub struct Block {
    pub stmts: Items<Syntax>,
    pub end: Spot,
}

/// What may be the step of a `for` (ECMA-334, 13.7 and 12.21)
#[derive(Debug, Drop)]
#[cycle(tree)]
pub enum Action {
    /// `a = b`
    Assign {
        place: Form,
        value: Form,
    },
    /// `a += b`
    Compound {
        op: AssignOp,
        place: Form,
        value: Form,
    },
    /// `a.b(c)`
    Invoke {
        call: Form,
    },
}

/// A label of a switch section (ECMA-334, 13.8.3)
#[derive(Debug, Drop)]
pub enum SwitchLabel {
    /// `case 7:`
    Case { spot: Spot, literal: Literal },
    /// `default:`
    Default { spot: Spot },
}

/// `case 7: default: { }` (ECMA-334, 13.8.3): one label at least
#[derive(Debug, Drop)]
#[cycle(tree)]
pub struct Section {
    pub labels: Seq<SwitchLabel>,
    pub block: Block,
}

/// `catch (global::System.Exception x) { }` (ECMA-334, 13.11), with the place of its `catch`
#[derive(Debug, Drop)]
#[cycle(tree)]
pub struct Catching {
    pub spot: Spot,
    pub ty: TypeForm,
    pub name: Option<Name>,
    pub block: Block,
}

/// A statement (ECMA-334, clause 13). Its place is that of its first token.
#[derive(Debug, Drop)]
#[cycle(tree)]
pub enum Syntax {
    /// `int x = a;`
    Declare {
        spot: Spot,
        ty: TypeForm,
        name: Name,
        value: Form,
    },
    /// `a = b;`, `a += b;`, `a.b(c);`
    Act {
        spot: Spot,
        action: Action,
    },
    /// `L: ;`
    Label {
        spot: Spot,
        label: Text,
    },
    /// `goto L;`
    Goto {
        spot: Spot,
        label: Text,
    },
    /// `break;`
    Break {
        spot: Spot,
    },
    /// `continue;`
    Continue {
        spot: Spot,
    },
    /// `return;`, `return a;`
    Return {
        spot: Spot,
        value: Option<Form>,
    },
    /// `throw;`, `throw a;`
    Throw {
        spot: Spot,
        value: Option<Form>,
    },
    /// `if (a) { } else { }`
    If {
        spot: Spot,
        test: Form,
        block: Block,
        otherwise: Option<Block>,
    },
    /// `while (a) { }`
    While {
        spot: Spot,
        test: Form,
        block: Block,
    },
    /// `do { } while (a);`
    DoWhile {
        spot: Spot,
        block: Block,
        test: Form,
    },
    /// `for (; a; b += 1) { }`
    For {
        spot: Spot,
        test: Form,
        step: Action,
        block: Block,
    },
    /// `foreach (int x in a) { }`
    Foreach {
        spot: Spot,
        ty: TypeForm,
        name: Name,
        array: Form,
        block: Block,
    },
    /// `using (global::A.B x = a) { }`
    Using {
        spot: Spot,
        ty: TypeForm,
        name: Name,
        value: Form,
        block: Block,
    },
    /// `lock (a) { }`
    Lock {
        spot: Spot,
        object: Form,
        block: Block,
    },
    /// `switch (a) { case 7: { } }`
    Switch {
        spot: Spot,
        value: Form,
        sections: Items<Section>,
    },
    /// `try { } catch (global::A.B x) { } finally { }`
    Try {
        spot: Spot,
        block: Block,
        catches: Items<Catching>,
        finally: Option<Block>,
    },
}

impl Form {
    /// Where the expression stands: its first token, a parenthesis included.
    pub fn spot(&self) -> Spot
        ensures { result ≡ form_spot self.now }
    {
        match self {
            Form::Literal { spot, .. }
            | Form::Name { spot, .. }
            | Form::This { spot, .. }
            | Form::Member { spot, .. }
            | Form::Call { spot, .. }
            | Form::BaseMember { spot, .. }
            | Form::BaseCall { spot, .. }
            | Form::Global { spot, .. }
            | Form::GlobalCall { spot, .. }
            | Form::Index { spot, .. }
            | Form::New { spot, .. }
            | Form::NewArray { spot, .. }
            | Form::Checked { spot, .. }
            | Form::Unchecked { spot, .. }
            | Form::Default { spot, .. }
            | Form::Lambda { spot, .. }
            | Form::Unary { spot, .. }
            | Form::Cast { spot, .. }
            | Form::Binary { spot, .. }
            | Form::Is { spot, .. }
            | Form::As { spot, .. }
            | Form::Conditional { spot, .. } => *spot,
        }
    }
}

impl Syntax {
    /// Where the statement stands: its first token.
    pub fn spot(&self) -> Spot
        ensures { result ≡ syntax_spot self.now }
    {
        match self {
            Syntax::Declare { spot, .. }
            | Syntax::Act { spot, .. }
            | Syntax::Label { spot, .. }
            | Syntax::Goto { spot, .. }
            | Syntax::Break { spot, .. }
            | Syntax::Continue { spot, .. }
            | Syntax::Return { spot, .. }
            | Syntax::Throw { spot, .. }
            | Syntax::If { spot, .. }
            | Syntax::While { spot, .. }
            | Syntax::DoWhile { spot, .. }
            | Syntax::For { spot, .. }
            | Syntax::Foreach { spot, .. }
            | Syntax::Using { spot, .. }
            | Syntax::Lock { spot, .. }
            | Syntax::Switch { spot, .. }
            | Syntax::Try { spot, .. } => *spot,
        }
    }
}
