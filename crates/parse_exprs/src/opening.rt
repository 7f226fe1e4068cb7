//! What a first token begins.
use ck_syntax::{Expr, PrefixOp};

/// What a token begins, as the first one of an expression, a statement or an item.
#[derive(Clone, Copy)]
pub enum Opening {
    /// An expression of one token that is no name.
    Atom,
    /// A name: an expression, or the base of a declaration.
    Name,
    Prefix(PrefixOp),
    /// A word that is the base of a declaration.
    Base,
    Paren,
    Array,
    New,
    Spork,
    Static,
    /// `auto`: the base of a declaration.
    Auto,
    Block,
    Empty,
    Print,
    If,
    While,
    Until,
    Do,
    For,
    Repeat,
    Break,
    Continue,
    Return,
    Fun,
    Class,
    Public,
    Nothing,
}

/// What begins a Unary that is no Dur.
#[derive(Clone, Copy)]
pub enum Lead {
    Prefix(PrefixOp),
    New,
    Spork,
}

/// What begins a Primary.
#[derive(Drop)]
pub enum Start {
    /// An expression of one token.
    Atom(Box<Expr>),
    /// `(`, with so many constructs open behind it.
    Paren(u32),
    /// `[`, with so many constructs open behind it.
    Array(u32),
}
