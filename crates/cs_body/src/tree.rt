// Statements and expressions (ECMA-334, clauses 12 and 13).
//
// A variable and a label are named by number, a member by its number in the assembly. The final marks stand from the
// start: `checked` for overflow tests, `by_slot` for a call of the override that the object has, `unequal` for `!=`.

use dc_base::{Boxed, Items, MemberId, Seq, Ty, TypeId};

/// A literal (ECMA-334, 6.4.5). A text is its UTF-16 units.
#[derive(Debug, Drop)]
pub enum Literal {
    Bool(bool),
    Char(u16),
    Int(i32),
    Uint(u32),
    Long(i64),
    Ulong(u64),
    Text(Seq<u16>),
}

/// An operator with one operand (ECMA-334, 12.9): `!`, `~` and `-`.
#[derive(Clone, Copy, Debug, PartialEq, Eq)]
pub enum UnaryOp {
    Not,
    Complement,
    Minus,
}

/// An operator with two operands (ECMA-334, 12.10 to 12.13). `BitAnd`, `BitOr` and `BitXor` of two truths are theirs.
#[derive(Clone, Copy, Debug, PartialEq, Eq)]
pub enum BinaryOp {
    Add,
    Sub,
    Mul,
    Div,
    Rem,
    ShiftLeft,
    ShiftRight,
    BitAnd,
    BitOr,
    BitXor,
    Equal,
    Unequal,
    Less,
    AtMost,
    Greater,
    AtLeast,
}

/// A label of a switch section: `case` with its literal, or `default`.
#[derive(Debug, Drop)]
pub enum Case {
    Of(Literal),
    Otherwise,
}

/// A section of a switch: its labels and its block.
#[derive(Debug, Drop)]
#[cycle(tree)]
pub struct Section {
    pub cases: Seq<Case>,
    pub block: Items<Stmt>,
}

/// A catch clause: the class that it takes, the variable that it sets, and its block.
#[derive(Debug, Drop)]
#[cycle(tree)]
pub struct Catch {
    pub class: TypeId,
    pub var: Option<u32>,
    pub block: Items<Stmt>,
}

/// A statement (ECMA-334, clause 13).
#[derive(Debug, Drop)]
#[cycle(tree)]
pub enum Stmt {
    Decl {
        var: u32,
        value: Expr,
    },
    Set {
        place: Expr,
        value: Expr,
    },
    SetOp {
        op: BinaryOp,
        place: Expr,
        value: Expr,
    },
    Do {
        call: Expr,
    },
    Label {
        label: u32,
    },
    Goto {
        label: u32,
    },
    If {
        test: Expr,
        block: Items<Stmt>,
        otherwise: Option<Items<Stmt>>,
    },
    While {
        test: Expr,
        block: Items<Stmt>,
    },
    DoWhile {
        block: Items<Stmt>,
        test: Expr,
    },
    For {
        test: Expr,
        step: Boxed<Stmt>,
        block: Items<Stmt>,
    },
    Foreach {
        var: u32,
        array: Expr,
        block: Items<Stmt>,
    },
    Using {
        var: u32,
        value: Expr,
        dispose: MemberId,
        block: Items<Stmt>,
    },
    Lock {
        object: Expr,
        enter: MemberId,
        exit: MemberId,
        block: Items<Stmt>,
    },
    Switch {
        value: Expr,
        sections: Items<Section>,
    },
    TextSwitch {
        value: Expr,
        equality: MemberId,
        sections: Items<Section>,
    },
    Try {
        block: Items<Stmt>,
        catches: Items<Catch>,
        finally: Option<Items<Stmt>>,
    },
    Break,
    Continue,
    Return {
        value: Option<Expr>,
    },
    Throw {
        value: Expr,
    },
    Rethrow,
}

/// An expression (ECMA-334, clause 12).
#[derive(Debug, Drop)]
#[cycle(tree)]
pub enum Expr {
    Literal {
        value: Literal,
    },
    Null,
    Default {
        ty: Ty,
    },
    Var {
        var: u32,
    },
    This,
    Field {
        object: Boxed<Expr>,
        field: MemberId,
    },
    Static {
        field: MemberId,
    },
    Element {
        array: Boxed<Expr>,
        index: Boxed<Expr>,
    },
    Length {
        array: Boxed<Expr>,
    },
    Call {
        object: Option<Boxed<Expr>>,
        method: MemberId,
        by_slot: bool,
        args: Items<Expr>,
    },
    New {
        maker: MemberId,
        args: Items<Expr>,
    },
    NewArray {
        element: Ty,
        length: Boxed<Expr>,
    },
    Delegate {
        maker: MemberId,
        object: Boxed<Expr>,
        target: MemberId,
        by_slot: bool,
    },
    Lambda {
        maker: MemberId,
        target: MemberId,
        params: Seq<u32>,
        block: Items<Stmt>,
    },
    Unary {
        op: UnaryOp,
        operand: Boxed<Expr>,
    },
    Binary {
        op: BinaryOp,
        checked: bool,
        left: Boxed<Expr>,
        right: Boxed<Expr>,
    },
    Convert {
        to: Ty,
        checked: bool,
        operand: Boxed<Expr>,
    },
    Cast {
        to: Ty,
        operand: Boxed<Expr>,
    },
    AsClass {
        to: Ty,
        operand: Boxed<Expr>,
    },
    IsClass {
        to: Ty,
        operand: Boxed<Expr>,
    },
    Box {
        from: Ty,
        to: Ty,
        operand: Boxed<Expr>,
    },
    Unbox {
        to: Ty,
        operand: Boxed<Expr>,
    },
    TruthToInt {
        test: Boxed<Expr>,
    },
    Cond {
        test: Boxed<Expr>,
        on_true: Boxed<Expr>,
        on_false: Boxed<Expr>,
    },
    And {
        left: Boxed<Expr>,
        right: Boxed<Expr>,
    },
    Or {
        left: Boxed<Expr>,
        right: Boxed<Expr>,
    },
    RefEqual {
        unequal: bool,
        left: Boxed<Expr>,
        right: Boxed<Expr>,
    },
    Lend {
        as_out: bool,
        place: Boxed<Expr>,
    },
}
