//! Operands: a value, or a declaration.
ghost use Rattle.std.specs.Prelude.{◌≡◌};
ghost use Rattle.parse_exprs.specs.Reads.{begins_with_base};

use crate::opening::Opening;
use crate::tokens::is_base_before;
use ck_lexer::Token;
use ck_syntax::{DeclHead, Declarator, Expr};

/// What an expression is made of, between its chuck operators.
#[derive(Drop)]
pub enum Operand {
    Declaration {
        line: u32,
        head: DeclHead,
        declarator: Declarator,
    },
    /// A value, and the depth behind it.
    Value {
        expr: Box<Expr>,
        depth: u32,
    },
}

/// Whether a declaration begins with a token of this opening, before `rest`.
pub fn begins_declaration(opening: Opening, rest: &[Token]) -> bool
    ensures { result ≡ begins_with_base opening rest.now }
{
    match opening {
        Opening::Base => true,
        Opening::Name => is_base_before(rest),
        _ => false,
    }
}
