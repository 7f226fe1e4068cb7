//! The nodes of statements, made of their parts.
ghost use Rattle.ck_parser.specs.Statements.{MakesStmt, each_of, loop_of, stmt_of};
ghost use Rattle.parse_exprs.specs.Operands.{tree_of};
ghost use Rattle.ck_syntax.specs.Tree as trees;
ghost use Rattle.ck_syntax.specs.Tree.{expr_line, no_stmts, return as a_return};
ghost use Rattle.ck_syntax.specs.View.{stmts_of, view_option, view_stmt_kind};

use ck_base::List;
use ck_syntax::{Expr, LoopItem, Stmt, StmtKind};
use fixed_point::Memory;
use parse_exprs::heap::boxed;
use std::alloc::Global;

/// The word that begins a loop whose test stands before its body.
#[derive(Clone, Copy, PartialEq, Eq)]
pub enum LoopWord {
    While,
    Until,
    Repeat,
}

/// What begins the parentheses of a `for`.
#[derive(Drop)]
pub enum ForStart {
    /// The first of three parts.
    Stmt(Box<Stmt>),
    /// What the items of an array are called, and the `:` behind it.
    Item(LoopItem),
}

/// A statement of this line and kind.
pub fn node(alloc: Global, line: u32, kind: StmtKind) -> Result<Box<Stmt>, Memory>
    ensures { MakesStmt (view_stmt_kind line kind) result }
{
    boxed(alloc, Stmt { line, kind })
}

/// An expression as a statement.
#[tactic(auto, using(ck_syntax::proofs::Views::line_is))]
pub fn simple(alloc: Global, expr: Box<Expr>) -> Result<Box<Stmt>, Memory>
    ensures { MakesStmt (trees.simple (expr_line (tree_of expr)) (tree_of expr)) result }
{
    let expr = Box::into_inner(expr);
    node(alloc, expr.line, StmtKind::Expr(expr))
}

/// A `return`, with its value if there is one.
pub fn return_value(alloc: Global, line: u32, value: Option<Box<Expr>>) -> Result<Box<Stmt>, Memory>
    ensures { MakesStmt (a_return line (view_option value)) result }
{
    node(alloc, line, StmtKind::Return(value))
}

/// A block.
pub fn block(alloc: Global, line: u32, stmts: List<Stmt>) -> Result<Box<Stmt>, Memory>
    ensures { MakesStmt (trees.block line (stmts_of no_stmts stmts)) result }
{
    node(alloc, line, StmtKind::Block(stmts))
}

/// An `if` without `else`.
pub fn if_then(
    alloc: Global,
    line: u32,
    test: Box<Expr>,
    then: Box<Stmt>,
) -> Result<Box<Stmt>, Memory>
    ensures { MakesStmt (trees.if_then line (tree_of test) (stmt_of then)) result }
{
    let test = Box::into_inner(test);
    node(alloc, line, StmtKind::If { test, then })
}

/// An `if` with its `else`.
pub fn if_else(
    alloc: Global,
    line: u32,
    test: Box<Expr>,
    then: Box<Stmt>,
    otherwise: Box<Stmt>,
) -> Result<Box<Stmt>, Memory>
    ensures { MakesStmt (trees.if_else line (tree_of test) (stmt_of then) (stmt_of otherwise))
        result }
{
    let kind = StmtKind::IfElse {
        test: Box::into_inner(test),
        then,
        otherwise,
    };
    node(alloc, line, kind)
}

/// A loop whose test stands before its body.
pub fn loop_before(
    alloc: Global,
    line: u32,
    word: LoopWord,
    test: Box<Expr>,
    body: Box<Stmt>,
) -> Result<Box<Stmt>, Memory>
    ensures { MakesStmt (loop_of word line (tree_of test) (stmt_of body)) result }
{
    let test = Box::into_inner(test);
    match word {
        LoopWord::While => node(alloc, line, StmtKind::While { test, body }),
        LoopWord::Until => node(alloc, line, StmtKind::Until { test, body }),
        LoopWord::Repeat => node(alloc, line, StmtKind::Repeat { count: test, body }),
    }
}

/// A `do` with its `while`.
pub fn do_while(
    alloc: Global,
    line: u32,
    body: Box<Stmt>,
    test: Box<Expr>,
) -> Result<Box<Stmt>, Memory>
    ensures { MakesStmt (trees.do_while line (stmt_of body) (tree_of test)) result }
{
    let test = Box::into_inner(test);
    node(alloc, line, StmtKind::DoWhile { body, test })
}

/// A `do` with its `until`.
pub fn do_until(
    alloc: Global,
    line: u32,
    body: Box<Stmt>,
    test: Box<Expr>,
) -> Result<Box<Stmt>, Memory>
    ensures { MakesStmt (trees.do_until line (stmt_of body) (tree_of test)) result }
{
    let test = Box::into_inner(test);
    node(alloc, line, StmtKind::DoUntil { body, test })
}

/// A `for`.
pub fn for_do(
    alloc: Global,
    line: u32,
    start: Box<Stmt>,
    test: Box<Stmt>,
    step: Option<Box<Expr>>,
    body: Box<Stmt>,
) -> Result<Box<Stmt>, Memory>
    ensures { MakesStmt
        (trees.for_do line (stmt_of start) (stmt_of test) (view_option step) (stmt_of body))
        result }
{
    let kind = StmtKind::For {
        start,
        test,
        step,
        body,
    };
    node(alloc, line, kind)
}

/// A `for` over an array.
pub fn for_each(
    alloc: Global,
    line: u32,
    item: LoopItem,
    array: Box<Expr>,
    body: Box<Stmt>,
) -> Result<Box<Stmt>, Memory>
    ensures { MakesStmt (each_of line item (tree_of array) (stmt_of body)) result }
{
    let item = boxed(alloc, item)?;
    let array = Box::into_inner(array);
    node(alloc, line, StmtKind::ForEach { item, array, body })
}
