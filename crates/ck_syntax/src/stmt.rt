use crate::declaration::DeclHead;
use crate::expr::{Declarator, Expr};
use ck_base::{List, Text};

/// A statement.
#[cycle(stmt)]
#[derive(Drop)]
pub struct Stmt {
    /// The line of its first token, from 1.
    pub line: u32,
    pub kind: StmtKind,
}

/// What a statement is.
#[cycle(stmt)]
#[derive(Drop)]
pub enum StmtKind {
    /// `Block = '{' Stmt* '}'`
    Block(List<Stmt>),
    /// `ExprStmt = ';'`
    Empty,
    /// `ExprStmt = Expr ';'`
    Expr(Expr),
    /// `ExprStmt = DeclHead Declr (',' Declr)+ ';'`
    Declare {
        head: DeclHead,
        declarators: List<Declarator>,
    },
    /// `Print = '<<<' Expr (',' Expr)* '>>>' ';'`
    Print(List<Expr>),
    /// `'if' '(' Expr ')' Stmt`
    If {
        test: Expr,
        then: Box<Stmt>,
    },
    /// `'if' '(' Expr ')' Stmt 'else' Stmt`
    IfElse {
        test: Expr,
        then: Box<Stmt>,
        otherwise: Box<Stmt>,
    },
    /// `'while' '(' Expr ')' Stmt`
    While {
        test: Expr,
        body: Box<Stmt>,
    },
    /// `'until' '(' Expr ')' Stmt`
    Until {
        test: Expr,
        body: Box<Stmt>,
    },
    /// `'do' Stmt 'while' '(' Expr ')' ';'`
    DoWhile {
        body: Box<Stmt>,
        test: Expr,
    },
    /// `'do' Stmt 'until' '(' Expr ')' ';'`
    DoUntil {
        body: Box<Stmt>,
        test: Expr,
    },
    /// `'for' '(' ExprStmt ExprStmt Expr? ')' Stmt`
    For {
        start: Box<Stmt>,
        test: Box<Stmt>,
        step: Option<Box<Expr>>,
        body: Box<Stmt>,
    },
    /// `'for' '(' (Base | 'auto') '@'? Name ('[' ']')* ':' Expr ')' Stmt`
    ForEach {
        item: Box<LoopItem>,
        array: Expr,
        body: Box<Stmt>,
    },
    /// `'repeat' '(' Expr ')' Stmt`
    Repeat {
        count: Expr,
        body: Box<Stmt>,
    },
    /// `'break' ';'`
    Break,
    /// `'continue' ';'`
    Continue,
    /// `'return' Expr? ';'`
    Return(Option<Box<Expr>>),
}

/// `(Base | 'auto') '@'? Name ('[' ']')*`: what a `for` over an array calls each item.
#[derive(Drop)]
pub struct LoopItem {
    /// Never static.
    pub head: DeclHead,
    pub name: Text,
    /// How many pairs of brackets stand behind the name.
    pub brackets: usize,
}
