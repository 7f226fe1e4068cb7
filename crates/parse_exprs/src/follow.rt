//! How a token goes on with what stands before it.
use ck_syntax::{BinaryOp, ChuckOp, PostfixOp};

/// How a token goes on with the expression before it.
#[derive(Clone, Copy)]
pub enum Follow {
    /// `(`: a call.
    Call,
    /// `[`: an item.
    Index,
    /// `.`: a member.
    Member,
    /// `++` or `--`.
    Postfix(PostfixOp),
    /// `::`
    Dur,
    /// `$`
    Cast,
    /// A binary operator.
    Binary(BinaryOp),
    /// `?`
    Cond,
    /// A chuck operator.
    Chuck(ChuckOp),
    /// It does not.
    Nothing,
}

/// How a token goes on with a Postfix before it.
#[derive(Clone, Copy)]
pub enum Suffix {
    /// `(`: a call.
    Call,
    /// `[`: an item.
    Index,
    /// `.`: a member.
    Member,
    /// `++` or `--`.
    Postfix(PostfixOp),
}
