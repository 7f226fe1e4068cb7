//! The raw trees of the language, as the parser makes them and the type checker reads them.
//!
//! A tree has the line of its first token, and a kind: one variant for each alternative of the
//! grammar, with the alternative's parts in order. Parentheses are kept. No two trees of different
//! form are made of the same tokens, and the size of a tree is the number of its tokens: both are
//! proved in the parser's crate, where the grammar stands.
#![tactic(auto)]

mod declaration;
mod expr;
mod file;
mod operator;
mod stmt;

pub use declaration::{Base, DeclHead, TypeName};
pub use expr::{Bracket, Declarator, DeclaratorTail, Expr, ExprKind};
pub use file::{ClassDef, File, FunDef, FunHead, Item, Member, Param};
pub use operator::{BinaryOp, ChuckOp, Constant, PostfixOp, PrefixOp, TimeUnit};
pub use stmt::{LoopItem, Stmt, StmtKind};
