use crate::expr::TypedExpr;
use ck_base::List;
use ck_values::{Kind, Place};

/// A statement whose types are settled. Its place is that of its first token.
#[derive(Drop)]
pub enum TypedStmt {
    /// An expression, whose value is dropped.
    Expr {
        value: TypedExpr,
        place: Place,
    },
    /// Statements in order; none for an empty statement.
    Block {
        statements: List<TypedStmt>,
    },
    /// `<<< a, b >>>`: at least one item, each with its static kind.
    Print {
        items: List<TypedExpr>,
        kinds: List<Kind>,
        place: Place,
    },
    /// `if`; where there is no `else`, the other branch is an empty block.
    If {
        test: TypedExpr,
        then: Box<TypedStmt>,
        otherwise: Box<TypedStmt>,
        place: Place,
    },
    /// `while (test) body`, and `until (test) body`, which goes on until its test holds.
    Loop {
        until: bool,
        test: TypedExpr,
        body: Box<TypedStmt>,
        place: Place,
    },
    /// `do body while (test);`, and `do body until (test);`: the test comes last.
    LoopLast {
        until: bool,
        body: Box<TypedStmt>,
        test: TypedExpr,
        place: Place,
    },
    /// `for (start; test; step) body`; a start or a step that is missing is an empty block.
    For {
        start: Box<TypedStmt>,
        test: TypedExpr,
        step: Box<TypedStmt>,
        body: Box<TypedStmt>,
        place: Place,
    },
    /// `for` without a test.
    ForEver {
        start: Box<TypedStmt>,
        step: Box<TypedStmt>,
        body: Box<TypedStmt>,
        place: Place,
    },
    /// `repeat (count) body`.
    Repeat {
        count: TypedExpr,
        body: Box<TypedStmt>,
        place: Place,
    },
    /// `for (x : array) body`: the items from the first on, each bound to the local x of this
    /// number. `widens` says that the items are ints and x is a float.
    ForEach {
        array: TypedExpr,
        local: u32,
        widens: bool,
        body: Box<TypedStmt>,
        place: Place,
    },
    /// `break;`
    Break {
        place: Place,
    },
    /// `continue;`
    Continue {
        place: Place,
    },
    /// `return value;`; a bare `return` gives the int 0.
    Return {
        value: TypedExpr,
        place: Place,
    },
}
